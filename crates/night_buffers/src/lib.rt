// What a call that prints answers: that the lent buffer is too short, or how many bytes were printed into it.
#![tactic(auto)]

ghost use Rattle.std.specs.Prelude.{◌≡◌};
ghost use Rattle.model.specs.Answers.{number};
ghost use Rattle.model.specs.Text.{bad_line};
ghost use Rattle.contracts.specs.Texts.{Gives, count_of};

use model::answer::Answer;

// The room that a bad line asks for.
const BAD_ROOM: usize = 7;

// What C is answered where the buffer is too short.
const SHORT_BUFFER: usize = 18446744073709551615;

// The line of a file that is not replayed.
pub fn print_bad(answer: Answer, out: &mut [u8]) -> Option<usize>
    ensures { Gives 7 (bad_line (number answer)) out.old out.new result }
{
    if out.len() < BAD_ROOM {
        return None;
    }
    let n = night_text::put_bad(out, 0, u8::from(answer));
    Some(n)
}

// The answer as a number.
#[tactic(auto, unfolding(contracts::specs::Texts::count_of))]
pub fn count_of(answer: Option<usize>) -> usize
    ensures { result ≡ count_of answer }
{
    match answer {
        None => SHORT_BUFFER,
        Some(n) => n,
    }
}
