// One byte of a night in pieces: what it changes and what it prints.
#![tactic(auto)]

ghost use Rattle.std.specs.Prelude.{◌≡◌, [], ◌∷◌, ◌++◌, ◌+◌, ◌≤◌, ◌<◌, length};
ghost use Rattle.model.specs.Stream.{took_record, took};
ghost use Rattle.pieces_carried.specs.Carrying.{held_in, carried_by, IsTidy, Leaves};
ghost use Rattle.night_text.specs.Buffer.{longest_line};

use model::answer::Answer;
use model::image::Image;
use model::stream::Phase;
use night_lines::Reached;
use night_records::Record;
use pieces_carried::{Carried, Taken};
use pieces_records::Played;

// The most that is held of a record that is not whole.
const RECORD_MOST: u8 = 11;

// A whole record: its step and its line, or a bad line where it is malformed.
fn take_whole_record(
    image: &mut Image,
    c: Carried,
    next: u32,
    records: u32,
    bytes: &Record,
    out: &mut [u8],
    at: usize,
) -> Taken
    requires { (next < records) × (at + longest_line ≤ length out.old) }
    ensures { Leaves (took_record (carried_by c image.old) next records bytes.now) at out.old out.new image.new result }
{
    let first = Played {
        taken: 0,
        next,
        reached: Reached {
            at,
            working: c.working,
        },
    };
    let played = pieces_records::play(image, first, c.edition, next + 1, bytes, out);
    if played.next == next {
        return pieces_carried::refuse(Answer::Malformed, c, out, at);
    }
    let phase = Phase::InRecords {
        next: played.next,
        records,
    };
    let carried = pieces_carried::entering(phase, c.edition, played.reached.working);
    Taken {
        at: played.reached.at,
        carried,
    }
}

// A byte of a record, which is judged at the last of them; none is due after the last record.
fn take_record(
    image: &mut Image,
    c: Carried,
    next: u32,
    records: u32,
    b: u8,
    out: &mut [u8],
    at: usize,
) -> Taken
    requires { IsTidy c × (at + longest_line ≤ length out.old) }
    ensures { Leaves (took_record (carried_by c image.old) next records (held_in c ++ (b ∷ []))) at out.old out.new image.new result }
{
    if records <= next {
        return pieces_carried::refuse(Answer::Malformed, c, out, at);
    }
    if c.count < RECORD_MOST {
        return pieces_carried::hold(c, b, at);
    }
    let mut held = c.held;
    held[c.count as usize] = b;
    take_whole_record(
        image,
        c,
        next,
        records,
        held.first_chunk().unwrap(),
        out,
        at,
    )
}

// One byte.
pub fn take(image: &mut Image, c: Carried, b: u8, out: &mut [u8], at: usize) -> Taken
    requires { IsTidy c × (at + longest_line ≤ length out.old) }
    ensures { Leaves (took (carried_by c image.old) b) at out.old out.new image.new result }
{
    match c.phase {
        Phase::InHeader => pieces_header::take_header(c, b, out, at),
        Phase::InImage { come, records } => pieces_image::take_image(
            image, c, come, records, b, out, at,
        ),
        Phase::InRecords { next, records } => take_record(image, c, next, records, b, out, at),
        Phase::Over => Taken { at, carried: c },
    }
}
