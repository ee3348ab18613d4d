// The hardware event that moves a path from state to state, by its signals.
#![tactic(auto)]

ghost use Rattle.std.specs.Prelude.{◌≡◌, ◌<◌};
ghost use Rattle.bits.specs.Choice.{only_if};
ghost use Rattle.bits.specs.Place.{get};
ghost use Rattle.bits.specs.Sets.{has, lane_count};
ghost use Rattle.model.specs.Map.{state_changed_flag, state_at};
ghost use Rattle.model.specs.PathStates.{state_of, resting};
ghost use Rattle.model.specs.Registers.{with_pending, with_flags};
ghost use Rattle.model.specs.Hardware.{is_initialized, entered_image, moved_image, moved_path_image};

use model::image::Image;
use model::path::PathState;

// Whether DPInitialized is reached from DPInit.
fn is_initialized(from: PathState, to: PathState) -> bool
    ensures { result ≡ is_initialized from to }
{
    (from == PathState::Init) & (to == PathState::Initialized)
}

// What was pending is done once DPInitialized is reached from DPInit.
fn clear_pending(image: &mut Image, path: u8, from: PathState, to: PathState)
    ensures { image.new ≡ only_if (is_initialized from to) (with_pending (has path) 0) image.old }
{
    if is_initialized(from, to) {
        bits_together::clear_bits(image, map::PENDING, path);
    }
}

// A resting state sets the lanes' DPStateChanged flags.
fn flag_change(image: &mut Image, path: u8, to: PathState)
    ensures { image.new ≡ only_if (resting to) (with_flags state_changed_flag path) image.old }
{
    if view_paths::is_resting(to) {
        bits_together::set_bits(image, map::STATE_CHANGED, path);
    }
}

// The path enters a state.
fn enter(image: &mut Image, path: u8, from: PathState, to: PathState)
    ensures { image.new ≡ entered_image path from to image.old }
{
    bits_nibbles::put_nibbles(image, map::STATES, path, u8::from(to));
    clear_pending(image, path, from, to);
    flag_change(image, path, to);
}

// A path that stays enters nothing.
fn move_to(image: &mut Image, path: u8, from: PathState, to: PathState)
    ensures { image.new ≡ moved_image path from to image.old }
{
    if from != to {
        enter(image, path, from, to);
    }
}

// A hardware event on a path, by the state of one of its lanes, in a module that holds every path down or does not.
pub fn move_path(image: &mut Image, down: bool, path: u8, lane: u8)
    requires { lane < lane_count }
    ensures { image.new ≡ moved_path_image down image.old path (state_of (get image.old (state_at lane))) }
{
    let from = PathState::from(bits_lanes::nibble(image, map::STATES, lane));
    let to = hardware_table::next_state(from, hardware_signals::signals_of(image, down, path));
    move_to(image, path, from, to);
}
