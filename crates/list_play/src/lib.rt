// A night as a list of events.
// The loop's whole state is one struct by value, so that the loop itself has a test, the loans, the event and one call.
#![tactic(auto)]

ghost use Rattle.contracts.specs.Forms.{IsOutcome};
ghost use Rattle.model.specs.State.{state_with};
ghost use Rattle.model.specs.Outcome.{list_outcome};

use contracts::Returned;
use model::answer::Answer;
use model::event::Event;
use model::lane::Working;

// The list.
pub fn play(image: &mut [u8], answers: &mut [u8], w: Working, events: &[Event]) -> Returned
    ensures { IsOutcome (list_outcome (state_with image.old w) answers.old events.now) result image.new answers.new }
{
    let Some(image) = image.as_mut_array() else {
        return contracts::reply(Answer::WrongLength, w);
    };
    let mut r = list_turns::begin(image, answers, w, events.len());
    while r.at < r.end {
        r = list_turns::turn(image, answers, r, events[r.at]);
    }
    r.left
}
