// One record of a night file: its event, and then its line.
#![tactic(auto)]

ghost use Rattle.std.specs.Prelude.{◌≡◌, ◌+◌, ◌≤◌, eqb, length};
ghost use Rattle.bits.specs.Choice.{pick};
ghost use Rattle.model.specs.Work.{early};
ghost use Rattle.model.specs.Step.{read_count, step};
ghost use Rattle.model.specs.State.{state_with};
ghost use Rattle.model.specs.Outcome.{list_room};
ghost use Rattle.model.specs.File.{later_editions, edition_among, event_of, record_length};
ghost use Rattle.night_lines.specs.Lines.{Turns};
ghost use Rattle.model.specs.Text.{decimal};
ghost use Rattle.night_text.specs.Buffer.{line_room};

use access_limits::READ_LIMIT;
use model::event::Call;
use model::image::Image;
use model::lane::Working;

// The longest line: an index of ten digits, an answer, 128 bytes.
pub const LONGEST_LINE: usize = 397;

// How far a replay has come: the bytes printed, and what the module keeps beside its image.
#[derive(Clone, Copy)]
pub struct Reached {
    pub at: usize,
    pub working: Working,
}

// How many bytes the line of a call shows that is done.
fn read_count(call: Call) -> usize
    ensures { result ≡ read_count call }
{
    match call {
        Call::Read { count, .. } => count as usize,
        Call::Write { .. }
        | Call::Work { .. }
        | Call::Hardware { .. }
        | Call::Condition { .. }
        | Call::Sample { .. }
        | Call::Lasting { .. }
        | Call::Module
        | Call::Line { .. } => 0,
    }
}

// How many of them it shows, by its answer's number.
#[tactic(auto, unfolding(bits::specs::Choice::pick))]
fn shown(answer: u8, count: usize) -> usize
    ensures { result ≡ pick (eqb answer 0) count 0 }
{
    if answer != 0 {
        return 0;
    }
    count
}

// A record's turn: its event, by the edition of its file, then its line.
pub fn turn(
    image: &mut Image,
    reached: Reached,
    buffer: &mut [u8; READ_LIMIT],
    bytes: &[u8],
    edition: u8,
    index: u32,
    out: &mut [u8],
) -> Reached
    requires { (record_length ≤ length bytes.now) × (reached.at + line_room (length (decimal index)) ≤ length out.old) }
    ensures { Turns (step early list_room (state_with image.old reached.working) (event_of (edition_among later_editions edition) bytes.now)) index reached.at buffer.old buffer.new out.old out.new image.new result }
{
    let event = night_events::event_of(bytes, edition);
    let asked = read_count(event.call);
    let left = step::step(image, reached.working, event, buffer);
    let number = u8::from(left.answer);
    let count = shown(number, asked);
    let at = night_text::put_line(out, reached.at, index, number, buffer, count);
    Reached {
        at,
        working: left.working,
    }
}
