// One event on a module whose image has its length, whatever event it is: the step of a run whose soundness is known.
#![tactic(auto)]

ghost use Rattle.std.specs.Prelude.{◌≡◌, length};
ghost use Rattle.contracts.specs.Forms.{IsOutcome};
ghost use Rattle.model.specs.State.{state_with};
ghost use Rattle.model.specs.Outcome.{step_outcome};
ghost use Rattle.model.specs.Step.{step};
ghost use Rattle.model.specs.Work.{early};

use contracts::Returned;
use model::event::{Call, Event};
use model::image::Image;
use model::lane::Working;

// Any event; the buffer is what a read fills.
pub fn step(image: &mut Image, w: Working, event: Event, buffer: &mut [u8]) -> Returned
    ensures { IsOutcome (step_outcome (step early (length buffer.old) (state_with image.old w) event) buffer.old) result image.new buffer.new }
{
    match event.call {
        Call::Write { address, count } => step_host::write(image, w, address, count, event.bytes),
        Call::Read { address, count } => step_host::read(image, w, address, count, buffer),
        Call::Work { lane } => step_module::work(image, w, lane),
        Call::Hardware { lane } => step_module::hardware(image, w, lane),
        Call::Condition { flag, mask } => step_module::condition(image, w, flag, mask),
        Call::Sample { lane, power } => step_module::sample(image, w, lane, power),
        Call::Lasting { flag, on, off } => step_module::lasting(image, w, flag, on, off),
        Call::Module => step_module::move_module(image, w),
        Call::Line { on } => step_module::set_line(image, w, on),
    }
}
