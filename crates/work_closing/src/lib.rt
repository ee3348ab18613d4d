// The closing step: the group's status, what is pending, the lanes to be commissioned, and its records idle again.
#![tactic(auto)]

ghost use Rattle.std.specs.Prelude.{◌≡◌, false};
ghost use Rattle.model.specs.PathStates.{commissioned};
ghost use Rattle.model.specs.Work.{early, pending_after, commission_mask, closed_state, closing_effect};
ghost use Rattle.model.specs.declared.lane.Trigger.TheVariants.{Immediate};
ghost use Rattle.contracts.specs.Forms.{IsState};
ghost use Rattle.model.specs.State.{state_with};
ghost use Rattle.work_closing.specs.Leaves.{Leaves};

use model::image::Image;
use model::lane::{LaneRecord, Trigger, Working};
use model::path::PathState;
use model::status::Status;

// What a work step hands back: the lanes to be commissioned, a bit each, and the working state.
#[derive(Clone, Copy)]
pub struct Worked {
    pub mask: u8,
    pub working: Working,
}

// DPInitPending as a closing pass that is no release leaves it: ApplyDPInit sets it, ApplyImmediate leaves it.
fn put_pending(image: &mut Image, trigger: Trigger, group: u8)
    ensures { image.new ≡ pending_after false trigger group image.old }
{
    match trigger {
        Trigger::DpInit => bits_together::set_bits(image, map::PENDING, group),
        Trigger::Immediate => {}
    }
}

// DPInitPending as a closing pass leaves it.
fn set_pending(image: &mut Image, release: bool, trigger: Trigger, group: u8)
    ensures { image.new ≡ pending_after release trigger group image.old }
{
    if release {
        bits_together::clear_bits(image, map::PENDING, group);
    } else {
        put_pending(image, trigger, group);
    }
}

// Whether an ApplyImmediate reaches the hardware in a state: DPInitialized or DPActivated.
fn is_commissioned(state: PathState) -> bool
    ensures { result ≡ commissioned state }
{
    match state {
        PathState::Reserved => false,
        PathState::Deactivated => false,
        PathState::Init => false,
        PathState::Deinit => false,
        PathState::Activated => true,
        PathState::TxTurnOn => false,
        PathState::TxTurnOff => false,
        PathState::Initialized => true,
    }
}

// The lanes that an ApplyImmediate, no release, commissions: the group, by the state of its first lane.
fn immediate_mask(image: &Image, group: u8) -> u8
    ensures { result ≡ commission_mask false Immediate image.now group }
{
    let first = bits_sets::next_in(group, 0);
    if LaneRecord::COUNT <= first {
        return 0;
    }
    let state = PathState::from(bits_lanes::nibble(image, map::STATES, first));
    if is_commissioned(state) { group } else { 0 }
}

// The lanes that a closing pass commissions.
fn commission_mask(image: &Image, release: bool, trigger: Trigger, group: u8) -> u8
    ensures { result ≡ commission_mask release trigger image.now group }
{
    if release {
        return 0;
    }
    match trigger {
        Trigger::DpInit => 0,
        Trigger::Immediate => immediate_mask(image, group),
    }
}

// The group closes with a status.
pub fn close(image: &mut Image, w: Working, group: u8, status: Status) -> Working
    ensures { IsState (closed_state image.old w group status.code) image.new result }
{
    bits_nibbles::put_nibbles(image, map::STATUSES, group, status.code);
    records::freed(w, group)
}

// The closing step of a pass. The state decides before the pending bits change.
pub fn close_pass(image: &mut Image, w: Working, group: u8, trigger: Trigger) -> Worked
    ensures { Leaves (closing_effect early (state_with image.old w) group trigger) image.new result }
{
    let release = records::is_release(w, group);
    let mask = commission_mask(image, release, trigger, group);
    set_pending(image, release, trigger, group);
    let working = close(image, w, group, Status::success());
    Worked { mask, working }
}
