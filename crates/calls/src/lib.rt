// Start, and any event: the refusals in the order 1, 2, 10 (start alone), 3, 4, 8, 5, 7, 6, and soundness asked once.
#![tactic(auto)]

ghost use Rattle.std.specs.Prelude.{[]};
ghost use Rattle.contracts.specs.Forms.{IsOutcome};
ghost use Rattle.model.specs.State.{state_with};
ghost use Rattle.model.specs.Outcome.{start_outcome, call_outcome};

use contracts::Returned;
use model::answer::Answer;
use model::event::Event;
use model::image::IMAGE_LENGTH;
use model::lane::Working;

// Start with an image: what stays of it, and all lanes idle.
pub fn start(image: &mut [u8]) -> Returned
    ensures { IsOutcome (start_outcome image.old) result image.new [] }
{
    let idle = Working::idle();
    if image.len() != IMAGE_LENGTH {
        return contracts::reply(Answer::WrongLength, idle);
    }
    let (image, _) = image.split_first_chunk_mut().unwrap();
    let answer = start_image::refusal(image);
    if answer != Answer::Done {
        return contracts::reply(answer, idle);
    }
    start_image::reset(image);
    contracts::reply(answer, idle)
}

// Any event, with the buffer that a read fills: the refusals 1, 2 and 3, then its step.
pub fn call(image: &mut [u8], w: Working, event: Event, buffer: &mut [u8]) -> Returned
    ensures { IsOutcome (call_outcome (state_with image.old w) buffer.old event) result image.new buffer.new }
{
    if image.len() != IMAGE_LENGTH {
        return contracts::reply(Answer::WrongLength, w);
    }
    let (image, _) = image.split_first_chunk_mut().unwrap();
    let answer = refusals::refusal(image, w);
    if answer != Answer::Done {
        return contracts::reply(answer, w);
    }
    step::step(image, w, event, buffer)
}

// An event that reads nothing: no buffer is lent for it.
pub fn without_buffer(image: &mut [u8], w: Working, event: Event) -> Returned
    ensures { IsOutcome (call_outcome (state_with image.old w) [] event) result image.new [] }
{
    let mut none = [0u8; 0];
    call(image, w, event, &mut none)
}
