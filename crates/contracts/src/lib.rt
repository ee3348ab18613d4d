// What calls hand back, and the forms of contracts over it.
#![tactic(auto)]

ghost use Rattle.std.specs.Prelude.{◌≡◌};

use model::answer::Answer;
use model::lane::Working;

// What a call hands back beside the image and the buffer that it was lent: its answer, the lanes to be commissioned, and the working state.
#[derive(Clone, Copy)]
pub struct Returned {
    pub answer: Answer,
    pub mask: u8,
    pub working: Working,
}

// An answer with the records, and no lane to be commissioned.
pub fn reply(answer: Answer, w: Working) -> Returned
    ensures { result ≡ record { answer = answer; mask = 0; working = w } }
{
    Returned {
        answer,
        mask: 0,
        working: w,
    }
}
