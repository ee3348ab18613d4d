// Where a list of events stands: admitted or refused, and then an event more with its answer's number.
#![tactic(auto)]

ghost use Rattle.std.specs.Prelude.{◌≡◌, ◌≤◌, ◌<◌, length};
ghost use Rattle.list_runs.specs.Runs.{refused_run, admitted_run, noted_run, noted_answers};

use contracts::Returned;
use model::answer::Answer;
use model::lane::Working;

// Where a list stands: what it leaves so far, the events done, and how many are to be done.
#[derive(Clone, Copy)]
pub struct Run {
    pub left: Returned,
    pub at: usize,
    pub end: usize,
}

// A list that is refused: none of its events is to be done.
fn refused(answer: Answer, w: Working) -> Run
    ensures { result ≡ refused_run answer w }
{
    let left = contracts::reply(answer, w);
    Run {
        left,
        at: 0,
        end: 0,
    }
}

// The admission of n events, by what every call is asked first and then by the room for their answers.
pub fn admitted(answer: Answer, room: usize, w: Working, n: usize) -> Run
    ensures { result ≡ admitted_run answer room n w }
{
    if answer != Answer::Done {
        return refused(answer, w);
    }
    if room < n {
        return refused(Answer::ShortBuffer, w);
    }
    let left = contracts::reply(Answer::Done, w);
    Run {
        left,
        at: 0,
        end: n,
    }
}

// An event is done: its answer's number goes to its place, and the working state that it left is carried on.
pub fn noted(answers: &mut [u8], r: Run, answer: Answer, working: Working) -> Run
    requires { (r.at < r.end) × (r.end ≤ length answers.old) }
    ensures { (result ≡ noted_run r working) × (answers.new ≡ noted_answers r answer answers.old) }
{
    let at = r.at;
    let admitted = r.left.answer;
    let left = contracts::reply(admitted, working);
    answers[at] = u8::from(answer);
    Run {
        left,
        at: at + 1,
        end: r.end,
    }
}
