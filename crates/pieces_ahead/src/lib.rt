// A feed as far as no byte has to be looked at by itself: an image's bytes straight into the lent image, and records read where they lie.
#![tactic(auto)]

ghost use Rattle.std.specs.Prelude.{◌≡◌, ◌+◌, ◌≤◌, ◌<◌, length};
ghost use Rattle.model.specs.declared.stream.Phase.TheVariants as phase;
ghost use Rattle.pieces_carried.specs.Carrying.{IsTidy};
ghost use Rattle.pieces_ahead.specs.Standing.{standing, between_records, Stands, Goes, GoesSilently};

use model::image::Image;
use model::stream::Phase;
use night_lines::{LONGEST_LINE, Reached};
use pieces_carried::{Carried, Taken};
use pieces_records::Played;

// Where a feed stands: the bytes taken, and how far it has come.
#[derive(Clone, Copy)]
pub struct Feeding {
    pub taken: usize,
    pub come: Taken,
}

// How many bytes of an image of a length are copied: those that are there, but not the image's last.
fn copied_bytes(length: usize, come: usize, there: usize) -> usize
    requires { come < length }
    ensures { (result ≤ there) × (come + result < length) }
{
    there.min(length - come - 1)
}

// An image's bytes but the last.
fn image_ahead(image: &mut Image, f: Feeding, come: u16, records: u32, piece: &[u8]) -> Feeding
    requires { IsTidy f.come.carried × (f.taken ≤ length piece.now) × (f.come.carried.phase ≡ phase.InImage come records) }
    ensures { GoesSilently piece.now f image.old result image.new }
{
    let at = come as usize;
    let length = night_file::image_bytes(f.come.carried.edition);
    if length <= at {
        return f;
    }
    let n = copied_bytes(length, at, piece.len() - f.taken);
    let taken = f.taken + n;
    image[at..at + n].copy_from_slice(&piece[f.taken..taken]);
    let phase = Phase::InImage {
        come: come + (n as u16),
        records,
    };
    let carried = Carried {
        phase,
        ..f.come.carried
    };
    Feeding {
        taken,
        come: Taken { carried, ..f.come },
    }
}

// Where a feed stands between two records.
#[tactic(auto, unfolding(crate::specs::Standing::between_records))]
fn between(edition: u8, records: u32, p: Played) -> Feeding
    ensures { result ≡ between_records edition records p }
{
    let phase = Phase::InRecords {
        next: p.next,
        records,
    };
    let carried = pieces_carried::entering(phase, edition, p.reached.working);
    Feeding {
        taken: p.taken,
        come: Taken {
            at: p.reached.at,
            carried,
        },
    }
}

// The records that lie whole in a piece, read where they lie, up to one that is malformed.
fn records_ahead(
    image: &mut Image,
    f: Feeding,
    next: u32,
    records: u32,
    piece: &[u8],
    out: &mut [u8],
) -> Feeding
    requires { Stands f piece.now out.old × (f.come.carried.phase ≡ phase.InRecords next records) × (f.come.carried.count ≡ 0) × (next ≤ records) }
    ensures { Goes piece.now (standing f image.old out.old) result image.new out.new }
{
    let edition = f.come.carried.edition;
    let first = Played {
        taken: f.taken,
        next,
        reached: Reached {
            at: f.come.at,
            working: f.come.carried.working,
        },
    };
    let played = pieces_records::play(image, first, edition, records, piece, out);
    between(edition, records, played)
}

// Records, where one is due and none is cut.
fn from_records(
    image: &mut Image,
    f: Feeding,
    next: u32,
    records: u32,
    piece: &[u8],
    out: &mut [u8],
) -> Feeding
    requires { Stands f piece.now out.old × (f.come.carried.phase ≡ phase.InRecords next records) }
    ensures { Goes piece.now (standing f image.old out.old) result image.new out.new }
{
    if f.come.carried.count != 0 {
        return f;
    }
    if records < next {
        return f;
    }
    records_ahead(image, f, next, records, piece, out)
}

// As far as no byte has to be looked at by itself; it may be no byte at all.
pub fn ahead(image: &mut Image, f: Feeding, piece: &[u8], out: &mut [u8]) -> Feeding
    requires { Stands f piece.now out.old }
    ensures { Goes piece.now (standing f image.old out.old) result image.new out.new }
{
    if out.len() - f.come.at < LONGEST_LINE {
        return f;
    }
    match f.come.carried.phase {
        Phase::InHeader => f,
        Phase::InImage { come, records } => image_ahead(image, f, come, records, piece),
        Phase::InRecords { next, records } => from_records(image, f, next, records, piece, out),
        Phase::Over => Feeding {
            taken: piece.len(),
            ..f
        },
    }
}
