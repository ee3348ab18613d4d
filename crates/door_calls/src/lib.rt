// Start, and any event, with the working state in a lent buffer.
#![tactic(auto)]

ghost use Rattle.std.specs.Prelude.{[]};
ghost use Rattle.door_answers.specs.Door.{door_start, door_outcome, IsLeft};

use model::answer::Answer;
use model::event::Event;

// Start with an image and a buffer for the working state.
pub fn start(image: &mut [u8], state: &mut [u8]) -> u32
    ensures { IsLeft (door_start image.old state.old) result image.new state.new [] }
{
    let answer = door_answers::start_refusal(image, state.len());
    if answer != Answer::Done {
        return door_answers::answered(answer, 0);
    }
    let left = calls::start(image);
    door_answers::hand_back(state, left)
}

// Any event, with the buffer that a read fills.
pub fn call(image: &mut [u8], state: &mut [u8], event: Event, buffer: &mut [u8]) -> u32
    ensures { IsLeft (door_outcome image.old state.old buffer.old event) result image.new state.new buffer.new }
{
    if !packing_reads::is_packing(state) {
        let answer = door_answers::strange_refusal(image);
        return door_answers::answered(answer, 0);
    }
    let left = calls::call(image, packing_reads::unpack(state), event, buffer);
    door_answers::hand_back(state, left)
}

// An event that reads nothing: no buffer is lent for it.
pub fn without_buffer(image: &mut [u8], state: &mut [u8], event: Event) -> u32
    ensures { IsLeft (door_outcome image.old state.old [] event) result image.new state.new [] }
{
    let mut none = [0u8; 0];
    call(image, state, event, &mut none)
}
