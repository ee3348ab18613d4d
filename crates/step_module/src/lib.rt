// The module's own events, on a module whose image has its length: the refusals 8, 7 and 6, then what the event does, then lower 3.0.
#![tactic(auto)]

ghost use Rattle.std.specs.Prelude.{◌≡◌, [], length};
ghost use Rattle.contracts.specs.Forms.{IsOutcome};
ghost use Rattle.model.specs.State.{state_with};
ghost use Rattle.model.specs.Outcome.{step_outcome};
ghost use Rattle.model.specs.Step.{step};
ghost use Rattle.model.specs.Work.{early};
ghost use Rattle.model.specs.declared.event.Call.TheVariants.{Work, Hardware, Condition, Sample, Lasting, Module, Line};
ghost use Rattle.contracts.specs.Asked.{asked};

use contracts::Returned;
use model::answer::Answer;
use model::image::Image;
use model::lane::{LaneRecord, Working};

// A work step on a lane.
pub fn work(image: &mut Image, w: Working, lane: u8) -> Returned
    ensures { IsOutcome (step_outcome (step early 0 (state_with image.old w) (asked (Work lane))) []) result image.new [] }
{
    if LaneRecord::COUNT <= lane {
        return contracts::reply(Answer::NoSuchTarget, w);
    }
    if !records::is_busy(w, lane) {
        return contracts::reply(Answer::NothingOnLane, w);
    }
    let worked = work::work(image, w, lane);
    flags_interrupt::settle(image);
    Returned {
        answer: Answer::Done,
        mask: worked.mask,
        working: worked.working,
    }
}

// A hardware event on the path of a lane. What is cheap is asked first: a lane in progress is busy, an unused one has no path.
pub fn hardware(image: &mut Image, w: Working, lane: u8) -> Returned
    ensures { IsOutcome (step_outcome (step early 0 (state_with image.old w) (asked (Hardware lane))) []) result image.new [] }
{
    if LaneRecord::COUNT <= lane {
        return contracts::reply(Answer::NoSuchTarget, w);
    }
    if records::is_busy(w, lane) {
        return contracts::reply(Answer::Busy, w);
    }
    if !view_paths::used_at(image, map::ACTIVE_SET, lane) {
        return contracts::reply(Answer::NothingOnLane, w);
    }
    let path = hardware_paths::path_of(image, lane);
    let busy = records::busy_lanes(w);
    if bits_sets::meets(path, busy) {
        contracts::reply(Answer::Busy, w)
    } else {
        let down = power_signals::holds_down(image, w.line);
        hardware_moves::move_path(image, down, path, lane);
        flags_interrupt::settle(image);
        contracts::reply(Answer::Done, w)
    }
}

// A condition that comes once, and sets bits of a flag byte.
pub fn condition(image: &mut Image, w: Working, flag: u8, mask: u8) -> Returned
    ensures { IsOutcome (step_outcome (step early 0 (state_with image.old w) (asked (Condition flag mask))) []) result image.new [] }
{
    if !flags::is_condition_flag(flag) {
        return contracts::reply(Answer::NoSuchTarget, w);
    }
    flags::condition(image, flag, mask);
    flags_interrupt::settle(image);
    contracts::reply(Answer::Done, w)
}

// A condition that lasts: it begins on some lanes and ends on others.
pub fn lasting(image: &mut Image, w: Working, flag: u8, on: u8, off: u8) -> Returned
    ensures { IsOutcome (step_outcome (step early 0 (state_with image.old w) (asked (Lasting flag on off))) []) result image.new [] }
{
    if !flags::is_condition_flag(flag) {
        return contracts::reply(Answer::NoSuchTarget, w);
    }
    let working = flags_lasting::condition(image, w, flag, on, off);
    flags_interrupt::settle(image);
    contracts::reply(Answer::Done, working)
}

// A sample of a lane's received power.
pub fn sample(image: &mut Image, w: Working, lane: u8, power: u16) -> Returned
    ensures { IsOutcome (step_outcome (step early 0 (state_with image.old w) (asked (Sample lane power))) []) result image.new [] }
{
    if LaneRecord::COUNT <= lane {
        return contracts::reply(Answer::NoSuchTarget, w);
    }
    let working = flags_sampled::sample(image, w, lane, power);
    flags_interrupt::settle(image);
    contracts::reply(Answer::Done, working)
}

// The module event: the module moves one state on.
pub fn move_module(image: &mut Image, w: Working) -> Returned
    ensures { IsOutcome (step_outcome (step early 0 (state_with image.old w) (asked Module)) []) result image.new [] }
{
    power_moves::move_module(image, w.line);
    flags_interrupt::settle(image);
    contracts::reply(Answer::Done, w)
}

// The low-power line is set.
pub fn set_line(image: &mut Image, w: Working, on: bool) -> Returned
    ensures { IsOutcome (step_outcome (step early 0 (state_with image.old w) (asked (Line on))) []) result image.new [] }
{
    let working = records::with_line(w, on);
    flags_interrupt::settle(image);
    contracts::reply(Answer::Done, working)
}
