// The reasons to reject a group, a test each.
#![tactic(auto)]

ghost use Rattle.std.specs.Prelude.{◌≡◌, not, ◌+◌, ◌≤◌, ◌<◌, ltb};
ghost use Rattle.bits.specs.Choice.{both, either};
ghost use Rattle.bits.specs.Sets.{has, first_in, lane_count};
ghost use Rattle.model.specs.Map.{active_set, image_length, set_length};
ghost use Rattle.model.specs.View.{of, state_in, limits_of, settings_of, states_of, view_of};
ghost use Rattle.model.specs.Verdicts.{other_app_sel, misplaced, incomplete, crossing, out_of_limits, unsupported, too_late, wrong_state};

use map::ACTIVE_SET;
use model::application::Descriptor;
use model::image::Image;
use model::lane::{LaneRecord, Trigger};
use model::path::PathState;

// 01h:153: the input EQ limit in bits 3-0, the amplitude codes supported in 7-4.
const EQUALIZER_AND_AMPLITUDES: usize = map::PAGE_01 + (153 - 128);

// 01h:154: the pre-cursor limit in bits 3-0, the post-cursor limit in 7-4.
const PRE_AND_POST: usize = map::PAGE_01 + (154 - 128);

// The highest amplitude code.
const HIGHEST_AMPLITUDE: u8 = 3;

// Whether a lane of the group has another AppSel than app in the set at a base.
pub fn has_other_app_sel(image: &Image, base: usize, group: u8, app: u8) -> bool
    requires { base + set_length ≤ image_length }
    ensures { result ≡ other_app_sel (settings_of base image.now) group app }
{
    bits_sets::meets(group, !view_paths::lanes_with_app(image, base, app))
}

// Whether the Application may not begin at first, would end past the last lane, or does not reach every lane of the group.
pub fn is_misplaced(d: Descriptor, first: u8, group: u8) -> bool
    requires { first < lane_count }
    ensures { result ≡ misplaced d first group }
{
    let count = d.count;
    let past = (LaneRecord::COUNT as u16) < (first as u16) + (count as u16);
    let outside = bits_sets::meets(group, !bits_sets::lanes_from(first, count));
    !bits_sets::is_in(d.firsts, first) | (past | outside)
}

// Whether a lane that the Application takes is not in the group.
pub fn is_incomplete(d: Descriptor, first: u8, group: u8) -> bool
    ensures { result ≡ incomplete d first group }
{
    let taken = bits_sets::lanes_from(first, d.count);
    bits_sets::meets(taken, !group)
}

// Whether a lane of the group is on an active path of other lanes. The group's first used lane tells: where its path is the group, so is that of the others.
pub fn is_crossing(image: &Image, group: u8) -> bool
    ensures { result ≡ crossing (settings_of active_set image.now) group }
{
    let used = group & view_paths::used_lanes(image, ACTIVE_SET);
    let first = bits_sets::next_in(used, 0);
    if first < LaneRecord::COUNT {
        return view_paths::path_of(image, first) != group;
    }
    false
}

// Whether the module does not offer an amplitude code.
fn is_refused(supported: u8, amplitude: u8) -> bool
    ensures { result ≡ either (ltb 3 amplitude) (not (has supported amplitude)) }
{
    if HIGHEST_AMPLITUDE < amplitude {
        return true;
    }
    !bits_sets::is_in(supported, amplitude)
}

// Whether a lane has ExplicitControl 1 and a setting staged that the module does not offer.
fn is_out_of_limits(image: &Image, base: usize, lane: u8) -> bool
    requires { (base + set_length ≤ image_length) × (lane < lane_count) }
    ensures { result ≡ out_of_limits (limits_of image.now) (of (settings_of base image.now) lane) }
{
    let h = view_settings::settings_at(image, base, lane);
    let a = image[EQUALIZER_AND_AMPLITUDES];
    let b = image[PRE_AND_POST];
    let equalizer = bits::take_field(a, 0, 4) < h.equalizer;
    let pre = bits::take_field(b, 0, 4) < h.pre;
    let post = bits::take_field(b, 4, 4) < h.post;
    let amplitude = is_refused(bits::take_field(a, 4, 4), h.amplitude);
    (view_settings::explicit(h) == 1) & (equalizer | (pre | (post | amplitude)))
}

// Whether a lane is one of the group and out of limits.
fn exceeds(image: &Image, base: usize, group: u8, lane: u8) -> bool
    requires { (base + set_length ≤ image_length) × (lane < lane_count) }
    ensures { result ≡ both (has group lane) (out_of_limits (limits_of image.now) (of (settings_of base image.now) lane)) }
{
    bits_sets::is_in(group, lane) && is_out_of_limits(image, base, lane)
}

// Whether a lane of the group is out of limits.
pub fn is_unsupported(image: &Image, base: usize, group: u8) -> bool
    requires { base + set_length ≤ image_length }
    ensures { result ≡ unsupported (view_of base image.now) group }
{
    (0..LaneRecord::COUNT).any(|lane| exceeds(image, base, group, lane))
}

// The state of a group: its first lane's.
fn state_of(image: &Image, group: u8) -> u8
    ensures { result ≡ state_in (states_of image.now) (first_in group) }
{
    let first = bits_sets::next_in(group, 0);
    if first < LaneRecord::COUNT {
        return bits_lanes::nibble(image, map::STATES, first);
    }
    0
}

// Whether an ApplyImmediate changes an AppSel outside DPDeactivated. The staged set has no part in it: the view is that of any.
fn is_too_late(image: &Image, trigger: Trigger, group: u8, app: u8) -> bool
    ensures { result ≡ too_late trigger (view_of active_set image.now) group app }
{
    match trigger {
        Trigger::DpInit => false,
        Trigger::Immediate => {
            let changes = has_other_app_sel(image, ACTIVE_SET, group, app);
            (state_of(image, group) != PathState::DEACTIVATED) & changes
        }
    }
}

// Whether the group's state does not allow the Apply. The staged set has no part in it either.
pub fn is_wrong_state(image: &Image, trigger: Trigger, group: u8, app: u8) -> bool
    ensures { result ≡ wrong_state trigger (view_of active_set image.now) group app }
{
    let state = PathState::from(state_of(image, group));
    !view_paths::is_resting(state) | is_too_late(image, trigger, group, app)
}
