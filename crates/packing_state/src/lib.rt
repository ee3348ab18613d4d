// The working state laid over the front of a lent buffer.
#![tactic(auto)]

ghost use Rattle.std.specs.Prelude.{◌≡◌, ◌≤◌, length};
ghost use Rattle.model.specs.Outcome.{laid_over};
ghost use Rattle.packing.specs.Packing.{state_length, packed};

use model::lane::Working;
use packing::{LINE_INDEX, RECORD_LENGTH};

// A working state laid over the front of a buffer.
pub fn pack(state: &mut [u8], w: Working)
    requires { state_length ≤ length state.old }
    ensures { state.new ≡ laid_over (packed w) state.old }
{
    for lane in 0..w.lanes.len() {
        let at = lane * RECORD_LENGTH;
        state[at..at + RECORD_LENGTH].copy_from_slice(&packing_bytes::record_bytes(w.lanes[lane]));
    }
    state[LINE_INDEX] = w.line as u8;
}
