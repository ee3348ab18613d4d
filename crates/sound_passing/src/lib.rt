// Condition (e) of soundness: a passing group, its purpose, its state, the lanes it has copied and those that are left.
#![tactic(auto)]

ghost use Rattle.std.specs.Prelude.{◌≡◌, ◌<◌, ltb};
ghost use Rattle.bits.specs.Choice.{implies};
ghost use Rattle.bits.specs.Sets.{has, mask_of, some_in, lane_count};
ghost use Rattle.model.specs.Map.{active_set, staged_set0};
ghost use Rattle.model.specs.Records.{stage_at, held_in};
ghost use Rattle.model.specs.View.{view_of, settings_at, settings_of, of, is_used};
ghost use Rattle.model.specs.Work.{written_settings};
ghost use Rattle.model.specs.Sound.{has_purpose, rests, same_settings, holds_copied, not_copied, rest_is_whole, passing_fits, group_fits};

use map::ACTIVE_SET;
use model::image::Image;
use model::lane::{LaneRecord, Progress, Verdict, Working};
use model::path::PathState;

// (e) a passing group is a release, or its held settings make a whole path of exactly its lanes.
fn has_purpose(image: &Image, w: Working, group: u8) -> bool
    ensures { result ≡ has_purpose (view_of staged_set0 image.now) w group }
{
    if records::is_release(w, group) {
        return true;
    }
    let first = bits_sets::next_in(group, 0);
    sound_paths::held_path(image, w, group, first, group)
}

// Its lanes agree on state 1, 4 or 7, on 1 for a release; an empty group has no state.
fn rests(image: &Image, w: Working, group: u8) -> bool
    ensures { result ≡ rests (view_of staged_set0 image.now) w group }
{
    let first = bits_sets::next_in(group, 0);
    if first == LaneRecord::COUNT {
        return false;
    }
    let state = bits_lanes::nibble(image, map::STATES, first);
    let resting = view_paths::is_resting(PathState::from(state));
    let released = !records::is_release(w, group) | (state == PathState::DEACTIVATED);
    sound_paths::agree_on_state(image, group, first) & (resting & released)
}

// Whether a lane's active settings are what the copying writes.
fn is_copied(image: &Image, w: Working, lane: u8) -> bool
    requires { lane < lane_count }
    ensures { result ≡ same_settings (settings_at active_set image.now lane) (written_settings (held_in (stage_at w lane))) }
{
    let active = view_settings::settings_at(image, ACTIVE_SET, lane);
    let held = records::held_at(w, lane);
    active == view_settings::written(held)
}

// Whether a lane holds what the copying writes, where it is one of the group before the next one.
fn is_copied_if_before(image: &Image, w: Working, group: u8, n: u8, lane: u8) -> bool
    requires { lane < lane_count }
    ensures { result ≡ implies (has group lane) (implies (ltb lane n) (same_settings (settings_at active_set image.now lane) (written_settings (held_in (stage_at w lane))))) }
{
    let copied = is_copied(image, w, lane);
    !bits_sets::is_in(group, lane) | (!(lane < n) | copied)
}

// Its lanes before the next one hold what the copying writes.
fn holds_copied(image: &Image, w: Working, group: u8, n: u8) -> bool
    ensures { result ≡ holds_copied (view_of staged_set0 image.now) w group n }
{
    (0..LaneRecord::COUNT).all(|lane| is_copied_if_before(image, w, group, n, lane))
}

// The lanes of a group from the next one on.
fn not_copied(group: u8, n: u8) -> u8
    ensures { result ≡ mask_of lane_count (not_copied group n) }
{
    group & !bits_sets::lanes_below(n as u16)
}

// Whether a lane of a set is used.
fn some_used(image: &Image, set: u8) -> bool
    ensures { result ≡ some_in set (λ m. is_used (of (settings_of active_set image.now) m)) }
{
    bits_sets::meets(set, view_paths::used_lanes(image, ACTIVE_SET))
}

// The rest of its lanes are all unused, or their whole path would be the group.
fn rest_is_whole(image: &Image, group: u8, n: u8) -> bool
    ensures { result ≡ rest_is_whole (view_of staged_set0 image.now) group n }
{
    let rest = not_copied(group, n);
    if !some_used(image, rest) {
        return true;
    }
    let first = bits_sets::next_in(group, n);
    sound_paths::active_path(image, rest, first, group)
}

// (e) of a group by its verdict.
fn passing_fits(image: &Image, w: Working, group: u8, verdict: Verdict) -> bool
    ensures { result ≡ passing_fits (view_of staged_set0 image.now) w group verdict }
{
    match verdict {
        Verdict::Pass(n) => {
            let meant = has_purpose(image, w, group) & rests(image, w, group);
            meant & (holds_copied(image, w, group, n) & rest_is_whole(image, group, n))
        }
        Verdict::Reject(_) => true,
    }
}

// (e) of a lane's group.
pub fn group_fits(image: &Image, w: Working, stage: Option<Progress>) -> bool
    ensures { result ≡ group_fits (view_of staged_set0 image.now) w stage }
{
    match stage {
        None => true,
        Some(p) => passing_fits(image, w, p.group, p.verdict),
    }
}
