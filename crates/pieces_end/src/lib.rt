// The end of a night in pieces: after its last record, or too early.
#![tactic(auto)]

ghost use Rattle.std.specs.Prelude.{◌≤◌, length};
ghost use Rattle.model.specs.Stream.{ended_in, ended};
ghost use Rattle.model.specs.declared.stream.Phase.TheVariants.{InRecords};
ghost use Rattle.pieces_carried.specs.Carrying.{carried_by, IsTidy, LeavesOfAny};
ghost use Rattle.night_text.specs.Buffer.{longest_line};

use model::answer::Answer;
use model::stream::Phase;
use pieces_carried::{Carried, Taken};

// The end among the records: after the last one, or too early.
fn end_records(c: Carried, next: u32, records: u32, out: &mut [u8]) -> Taken
    requires { IsTidy c × (longest_line ≤ length out.old) }
    ensures { LeavesOfAny (λ x. ended_in (InRecords next records) (carried_by c x)) 0 out.old out.new result }
{
    if (records <= next) & (c.count == 0) {
        return Taken {
            at: 0,
            carried: pieces_carried::entering(Phase::Over, c.edition, c.working),
        };
    }
    pieces_carried::refuse(Answer::Malformed, c, out, 0)
}

// The end.
pub fn end(c: Carried, out: &mut [u8]) -> Taken
    requires { IsTidy c × (longest_line ≤ length out.old) }
    ensures { LeavesOfAny (λ x. ended (carried_by c x)) 0 out.old out.new result }
{
    match c.phase {
        Phase::InHeader | Phase::InImage { .. } => {
            pieces_carried::refuse(Answer::Malformed, c, out, 0)
        }
        Phase::InRecords { next, records } => end_records(c, next, records, out),
        Phase::Over => Taken { at: 0, carried: c },
    }
}
