// What a call of firmware hands back: the working state in its buffer, the one number for its answer and mask; and the refusals that are asked before a working state is there.
#![tactic(auto)]

ghost use Rattle.std.specs.Prelude.{◌≡◌, ◌≤◌, length};
ghost use Rattle.model.specs.Refusals.{first_of};
ghost use Rattle.model.specs.Outcome.{laid_over};
ghost use Rattle.packing.specs.Packing.{state_length, packed};
ghost use Rattle.door_answers.specs.Door.{returned_for, door_start_refusals, strange_refusals};

use contracts::Returned;
use model::answer::Answer;
use model::image::IMAGE_LENGTH;
use packing::STATE_LENGTH;

// The answer's number, and the lanes to be commissioned in the byte above it.
#[tactic(auto, unfolding(crate::specs::Door::returned_for))]
pub fn answered(answer: Answer, mask: u8) -> u32
    ensures { result ≡ returned_for answer mask }
{
    (mask as u32) * 256 + u8::from(answer) as u32
}

// The working state that a call handed back laid over the state, and its answer and mask as one number.
pub fn hand_back(state: &mut [u8], left: Returned) -> u32
    requires { state_length ≤ length state.old }
    ensures { (result ≡ returned_for left.answer left.mask) × (state.new ≡ laid_over (packed left.working) state.old) }
{
    packing_state::pack(state, left.working);
    answered(left.answer, left.mask)
}

// What start has against an image and the room for a working state, or that it takes them.
pub fn start_refusal(image: &[u8], room: usize) -> Answer
    ensures { result ≡ first_of (door_start_refusals image.now room) }
{
    let answer = start_image::refusal(image);
    if answer != Answer::Done {
        return answer;
    }
    if room < STATE_LENGTH {
        return Answer::ShortBuffer;
    }
    Answer::Done
}

// The answer to a call whose state is no working state's bytes: 1, 2 or 3.
pub fn strange_refusal(image: &[u8]) -> Answer
    ensures { result ≡ first_of (strange_refusals image.now) }
{
    if image.len() != IMAGE_LENGTH {
        return Answer::WrongLength;
    }
    let image = start_image::whole(image);
    if start_image::is_flat(image) {
        return Answer::FlatMemory;
    }
    Answer::Unsound
}
