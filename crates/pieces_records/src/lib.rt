// A run over records that lie whole in a row of bytes: a piece's own, or the one that a cut has split and that was gathered.
#![tactic(auto)]

ghost use Rattle.std.specs.Prelude.{◌≡◌, ◌-◌, ◌≤◌, length};
ghost use Rattle.model.specs.File.{later_editions, edition_among};
ghost use Rattle.pieces_records.specs.Running.{runs, running};

use access_limits::READ_LIMIT;
use model::image::Image;
use night_lines::{LONGEST_LINE, Reached};
use night_records::RECORD_LENGTH;

// Where a run stands: the bytes taken, the next record's index, and what it has reached.
#[derive(Clone, Copy)]
pub struct Played {
    pub taken: usize,
    pub next: u32,
    pub reached: Reached,
}

fn standing_at(taken: usize, next: u32, reached: Reached) -> Played
    ensures { result ≡ record { taken = taken; next = next; reached = reached } }
{
    Played {
        taken,
        next,
        reached,
    }
}

// The records up to an index, while they lie whole in the bytes, are well-formed in an edition, and the output has room for a longest line.
pub fn play(
    image: &mut Image,
    p: Played,
    edition: u8,
    records: u32,
    bytes: &[u8],
    out: &mut [u8],
) -> Played
    requires { (p.taken ≤ length bytes.now) × (p.reached.at ≤ length out.old) × (p.next ≤ records) }
    ensures { running result image.new out.new ≡ runs (edition_among later_editions edition) (records - p.next) (running p image.old out.old) bytes.now }
{
    let mut buffer = [0u8; READ_LIMIT];
    let mut taken = p.taken;
    let mut reached = p.reached;
    for next in p.next..records {
        let Some(record) = bytes[taken..].first_chunk::<RECORD_LENGTH>() else {
            return standing_at(taken, next, reached);
        };
        if out.len() - reached.at < LONGEST_LINE {
            return standing_at(taken, next, reached);
        }
        if !night_records::is_record(record, edition) {
            return standing_at(taken, next, reached);
        }
        reached = night_lines::turn(image, reached, &mut buffer, record, edition, next, out);
        taken += RECORD_LENGTH;
    }
    standing_at(taken, records, reached)
}
