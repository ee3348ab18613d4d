// A piece, byte by byte where a byte has to be looked at by itself, and ahead where none has.
#![tactic(auto)]

ghost use Rattle.std.specs.Prelude.{◌≡◌, ◌+◌, ◌≤◌, ◌<◌, length};
ghost use Rattle.night_text.specs.Buffer.{longest_line};
ghost use Rattle.pieces_carried.specs.Carrying.{carried_by, IsTidy};
ghost use Rattle.pieces_going.specs.Going.{at_first, going};
ghost use Rattle.pieces_ahead.specs.Standing.{standing, Stands, Goes};

use model::image::Image;
use night_lines::LONGEST_LINE;
use pieces_ahead::Feeding;
use pieces_carried::{Carried, Taken};

// A byte by itself.
fn byte_ahead(image: &mut Image, f: Feeding, piece: &[u8], out: &mut [u8]) -> Feeding
    requires { Stands f piece.now out.old × (f.taken < length piece.now) × (f.come.at + longest_line ≤ length out.old) }
    ensures { (result.taken ≡ f.taken + 1) × Goes piece.now (standing f image.old out.old) result image.new out.new }
{
    let come = pieces_bytes::take(image, f.come.carried, piece[f.taken], out, f.come.at);
    Feeding {
        taken: f.taken + 1,
        come,
    }
}

// On by a byte at least.
fn onward(image: &mut Image, f: Feeding, piece: &[u8], out: &mut [u8]) -> Feeding
    requires { Stands f piece.now out.old × (f.taken < length piece.now) × (f.come.at + longest_line ≤ length out.old) }
    ensures { (f.taken < result.taken) × Goes piece.now (standing f image.old out.old) result image.new out.new }
{
    let g = byte_ahead(image, f, piece, out);
    pieces_ahead::ahead(image, g, piece, out)
}

// A piece, while the output has room for a longest line.
pub fn take_piece(image: &mut Image, carried: Carried, piece: &[u8], out: &mut [u8]) -> Feeding
    ensures { IsTidy result.come.carried × (standing result image.new out.new ≡ going (at_first (carried_by carried image.old) out.old) piece.now) }
{
    let carried = pieces_carried::tidied(carried);
    let first = Feeding {
        taken: 0,
        come: Taken { at: 0, carried },
    };
    let mut f = pieces_ahead::ahead(image, first, piece, out);
    while (f.taken < piece.len()) & (LONGEST_LINE <= out.len() - f.come.at) {
        f = onward(image, f, piece, out);
    }
    f
}
