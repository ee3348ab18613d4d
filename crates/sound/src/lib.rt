// Soundness: the test of document 01's conditions (a) to (f) over an image and the lanes' records.
#![tactic(auto)]

ghost use Rattle.std.specs.Prelude.{◌≡◌, ◌<◌, eqb};
ghost use Rattle.bits.specs.Choice.{both, implies};
ghost use Rattle.bits.specs.Loop.{all_below};
ghost use Rattle.bits.specs.Place.{get};
ghost use Rattle.bits.specs.Sets.{has, lane_count};
ghost use Rattle.model.specs.Map.{staged_set0, flag_at, lasting_count, lasting_flag};
ghost use Rattle.model.specs.Records.{idle_working};
ghost use Rattle.model.specs.View.{view_of};
ghost use Rattle.model.specs.Sound.{status_tells, in_whole_path, is_at_rest, outside_passing, lane_sound, on_fits, is_sound};

use map::ACTIVE_SET;
use model::image::Image;
use model::lane::{LaneRecord, Working};
use model::path::PathState;
use model::status::Status;

// The end of the numbers that have a bit for each flag that can last.
const ON_END: u16 = 1 << map::LASTING_COUNT;

// (a) ConfigStatus says in progress exactly where the lane's record does.
fn status_tells(image: &Image, w: Working, lane: u8) -> bool
    requires { lane < lane_count }
    ensures { result ≡ status_tells image.now w lane }
{
    let told = bits_lanes::nibble(image, map::STATUSES, lane) == Status::IN_PROGRESS;
    let kept = records::is_in_progress(records::stage_at(w, lane));
    (told & kept) | (!told & !kept)
}

// (c) a used lane lies in a whole path whose lanes agree on a state of 1 to 7.
fn in_whole_path(image: &Image, lane: u8) -> bool
    requires { lane < lane_count }
    ensures { result ≡ in_whole_path (view_of staged_set0 image.now) lane }
{
    let path = view_paths::path_of(image, lane);
    let state = bits_lanes::nibble(image, map::STATES, lane);
    let possible = (PathState::DEACTIVATED <= state) & (state <= PathState::INITIALIZED);
    sound_paths::active_path(image, path, lane, path)
        & (sound_paths::agree_on_state(image, path, lane) & possible)
}

// (d) an unused lane is DPDeactivated with nothing pending.
fn is_at_rest(image: &Image, lane: u8) -> bool
    requires { lane < lane_count }
    ensures { result ≡ is_at_rest image.now (view_of staged_set0 image.now) lane }
{
    let state = bits_lanes::nibble(image, map::STATES, lane);
    let pending = bits_lanes::lane_bit(image, map::PENDING, lane);
    (state == PathState::DEACTIVATED) & (pending == 0)
}

// (c) and (d), of a lane outside a passing group; the records play no part.
fn outside_passing(image: &Image, lane: u8) -> bool
    requires { lane < lane_count }
    ensures { result ≡ outside_passing image.now (view_of staged_set0 image.now) idle_working lane }
{
    if view_paths::used_at(image, ACTIVE_SET, lane) {
        in_whole_path(image, lane)
    } else {
        is_at_rest(image, lane)
    }
}

// (a) to (e) of one lane.
fn is_lane_sound(image: &Image, w: Working, lane: u8) -> bool
    requires { lane < lane_count }
    ensures { result ≡ lane_sound image.now (view_of staged_set0 image.now) w lane }
{
    let stage = records::stage_at(w, lane);
    let told = status_tells(image, w, lane) & sound_groups::stage_fits(w, lane, stage);
    let outside = records::is_passing(stage) | outside_passing(image, lane);
    told & (outside & sound_passing::group_fits(image, w, stage))
}

// A lane's flag is 1, where it is on.
fn is_raised_if_on(image: &Image, on: u16, lane: u8, k: u8) -> bool
    requires { (lane < lane_count) × (k < lasting_count) }
    ensures { result ≡ implies (has on k) (eqb (get image.now (flag_at (lasting_flag k) lane)) 1) }
{
    let flag = map::lasting_flag(k);
    let raised = bits_lanes::lane_bit(image, map::on(map::PAGE_11, flag), lane) == 1;
    !records::is_on(on, k) | raised
}

// Each of a lane's flags that is on is 1.
fn are_raised(image: &Image, on: u16, lane: u8) -> bool
    requires { lane < lane_count }
    ensures { result ≡ all_below lasting_count (λ k. implies (has on k) (eqb (get image.now (flag_at (lasting_flag k) lane)) 1)) }
{
    (0..map::LASTING_COUNT).all(|k| is_raised_if_on(image, on, lane, k))
}

// (f) what is on of a lane are flags that can last, and they are 1.
fn on_fits(image: &Image, w: Working, lane: u8) -> bool
    requires { lane < lane_count }
    ensures { result ≡ on_fits image.now w lane }
{
    let on = records::on_at(w, lane);
    if on == 0 {
        return true;
    }
    (on < ON_END) & are_raised(image, on, lane)
}

// (a) to (f) of one lane.
fn fits(image: &Image, w: Working, lane: u8) -> bool
    requires { lane < lane_count }
    ensures { result ≡ both (lane_sound image.now (view_of staged_set0 image.now) w lane) (on_fits image.now w lane) }
{
    is_lane_sound(image, w, lane) & on_fits(image, w, lane)
}

// Whether a state is sound.
pub fn is_sound(image: &Image, w: Working) -> bool
    ensures { result ≡ is_sound (record { image = image.entry.now; working = w }) }
{
    (0..LaneRecord::COUNT).all(|lane| fits(image, w, lane))
}
