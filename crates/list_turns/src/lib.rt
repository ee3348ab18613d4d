// A list of events: its admission, with 1, 2, 3 and 5 asked once for the whole list, and the turn of one event, whose answer's number goes into a lent buffer.
#![tactic(auto)]

ghost use Rattle.std.specs.Prelude.{◌≡◌, ◌≤◌, ◌<◌, length};
ghost use Rattle.list_turns.specs.Turns.{begin_of, turn_of};

use access_limits::READ_LIMIT;
use list_runs::Run;
use model::event::Event;
use model::image::Image;
use model::lane::Working;

// The admission of a list of n events.
pub fn begin(image: &[u8], answers: &[u8], w: Working, n: usize) -> Run
    ensures { record { image = image.now; answers = answers.now; r = result } ≡ begin_of n image.now answers.now w }
{
    let answer = refusals::refusal(image, w);
    list_runs::admitted(answer, answers.len(), w, n)
}

// One event, and its answer's number; the bytes of a read are dropped.
pub fn turn<'a>(image: &'a mut Image, answers: &'a mut [u8], r: Run, event: Event) -> Run
    requires { (r.at < r.end) × (r.end ≤ length answers.old) }
    ensures { record { image = image.exit.now; answers = answers.new; r = result } ≡ turn_of event (record { image = image.entry.now; answers = answers.old; r = r }) }
{
    let mut bytes = [0u8; READ_LIMIT];
    let stepped = step::step(image, r.left.working, event, &mut bytes);
    list_runs::noted(answers, r, stepped.answer, stepped.working)
}
