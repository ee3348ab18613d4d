// A trigger: the groups that it finds are marked, with their verdicts fixed at once and what is staged held.
#![tactic(auto)]

ghost use Rattle.std.specs.Prelude.{◌≡◌};
ghost use Rattle.model.specs.Triggers.{is_ignored, triggered_state};
ghost use Rattle.contracts.specs.Forms.{IsState};
ghost use Rattle.model.specs.State.{state_with};

use model::image::Image;
use model::lane::{StagedSet, Trigger, Working};
use model::status::Status;

// Lower byte 2, whose bit 6 is SteppedConfigOnly.
const CHARACTERISTICS: usize = 2;

// Whether the module ignores a trigger: ApplyImmediate where it is configured in steps only.
fn is_ignored(image: &Image, kind: Trigger) -> bool
    ensures { result ≡ is_ignored kind image.now }
{
    match kind {
        Trigger::DpInit => false,
        Trigger::Immediate => bits::take_field(image[CHARACTERISTICS], 6, 1) == 1,
    }
}

// A trigger of a staged set, for the selected lanes.
pub fn trigger(
    image: &mut Image,
    w: Working,
    kind: Trigger,
    set: StagedSet,
    selected: u8,
) -> Working
    ensures { IsState (triggered_state kind set (state_with image.old w) selected) image.new result }
{
    if is_ignored(image, kind) {
        return w;
    }
    let m = apply_marks::mark(image, w, kind, set, selected);
    let status = Status::in_progress();
    bits_lanes::put_each(image, map::STATUSES, 4, m.marked, status.code);
    m.working
}
