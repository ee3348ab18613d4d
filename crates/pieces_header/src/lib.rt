// A byte of the header, which is judged at the last of them.
#![tactic(auto)]

ghost use Rattle.std.specs.Prelude.{[], ◌∷◌, ◌++◌, ◌+◌, ◌≤◌, length};
ghost use Rattle.model.specs.Stream.{took_header};
ghost use Rattle.pieces_carried.specs.Carrying.{held_in, carried_by, IsTidy, LeavesOfAny};
ghost use Rattle.night_text.specs.Buffer.{longest_line};

use model::answer::Answer;
use model::stream::Phase;
use night_file::Header;
use pieces_carried::{Carried, HEADER_MOST, Taken};

// Any number of four bytes.
const COUNT_LIMIT: u32 = 4294967295;

// A whole header.
fn take_whole_header(c: Carried, header: &Header, out: &mut [u8], at: usize) -> Taken
    requires { at + longest_line ≤ length out.old }
    ensures { LeavesOfAny (λ x. took_header (carried_by c x) header.now) at out.old out.new result }
{
    if !night_file::is_header(header, COUNT_LIMIT) {
        return pieces_carried::refuse(Answer::Malformed, c, out, at);
    }
    let records = night_file::record_count(header);
    let carried = pieces_carried::entering(
        Phase::InImage { come: 0, records },
        header[2],
        c.working,
    );
    Taken { at, carried }
}

// A byte of the header.
pub fn take_header(c: Carried, b: u8, out: &mut [u8], at: usize) -> Taken
    requires { IsTidy c × (at + longest_line ≤ length out.old) }
    ensures { LeavesOfAny (λ x. took_header (carried_by c x) (held_in c ++ (b ∷ []))) at out.old out.new result }
{
    if c.count < HEADER_MOST {
        return pieces_carried::hold(c, b, at);
    }
    let mut held = c.held;
    held[c.count as usize] = b;
    take_whole_header(c, &held, out, at)
}
