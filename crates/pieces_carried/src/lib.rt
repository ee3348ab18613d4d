// What is carried from piece to piece of a night: before the first byte, with one byte more held, and after a bad line.
#![tactic(auto)]

ghost use Rattle.std.specs.Prelude.{◌≡◌, [], ◌+◌, ◌≤◌, ◌<◌, length};
ghost use Rattle.model.specs.Stream.{begun, refused};
ghost use Rattle.pieces_carried.specs.Carrying.{held_room, held_count, carried_by, padded, kept, IsTidy, HoldsOneMore, LeavesOfAny};
ghost use Rattle.night_text.specs.Buffer.{longest_line};

use model::answer::Answer;
use model::lane::Working;
use model::stream::Phase;

// Room for a whole header, the longest part that is gathered.
const HELD_ROOM: usize = 16;

// The most that is held of a header that is not whole.
pub const HEADER_MOST: u8 = 15;

// What is carried from one piece to the next beside the image: which part is coming, the header's edition, the bytes held of a header or a record that is not whole, and the working state.
#[derive(Clone, Copy)]
pub struct Carried {
    pub phase: Phase,
    pub edition: u8,
    pub held: [u8; HELD_ROOM],
    pub count: u8,
    pub working: Working,
}

// How far a feed has come: the bytes printed, and what is carried.
#[derive(Clone, Copy)]
pub struct Taken {
    pub at: usize,
    pub carried: Carried,
}

// A phase that begins, with nothing held.
#[tactic(auto, unfolding(crate::specs::Carrying::padded, bits::specs::Loop::tab))]
pub fn entering(phase: Phase, edition: u8, working: Working) -> Carried
    ensures { result ≡ record { phase = phase; edition = edition; held = padded []; count = 0; working = working } }
{
    Carried {
        phase,
        edition,
        held: [0u8; HELD_ROOM],
        count: 0,
        working,
    }
}

// Before the first byte.
#[tactic(auto, unfolding(crate::specs::Carrying::kept, model::specs::Stream::begun))]
pub fn begun() -> Carried
    ensures { result ≡ kept (begun []) }
{
    entering(Phase::InHeader, 0, Working::idle())
}

// How many bytes are held: a part that is not whole lacks one at least.
fn held_count(count: u8) -> u8
    ensures { (result ≡ held_count count) × (result < held_room) }
{
    count.min(HEADER_MOST)
}

// What is carried, with zeros after the bytes that are held.
pub fn tidied(c: Carried) -> Carried
    ensures { result ≡ kept (carried_by c []) }
{
    let count = held_count(c.count);
    let mut held = [0u8; HELD_ROOM];
    held[..count as usize].copy_from_slice(&c.held[..count as usize]);
    Carried { held, count, ..c }
}

// A bad line, the last one.
pub fn refuse(answer: Answer, c: Carried, out: &mut [u8], at: usize) -> Taken
    requires { at + longest_line ≤ length out.old }
    ensures { LeavesOfAny (λ x. refused answer (carried_by c x)) at out.old out.new result }
{
    let at = night_text::put_bad(out, at, u8::from(answer));
    let carried = entering(Phase::Over, c.edition, c.working);
    Taken { at, carried }
}

// One byte more is held.
pub fn hold(c: Carried, b: u8, at: usize) -> Taken
    requires { IsTidy c × (c.count + 1 < held_room) }
    ensures { (result.at ≡ at) × HoldsOneMore c b result.carried }
{
    let mut held = c.held;
    held[c.count as usize] = b;
    let carried = Carried {
        held,
        count: c.count + 1,
        ..c
    };
    Taken { at, carried }
}
