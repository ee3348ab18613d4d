// The lines of a night in pieces, written to standard output: a piece's when it was fed, the last one at the end.
#![tactic(auto)]

ghost use Rattle.std.specs.Prelude.{◌≡◌, ◌≤◌, ◌<◌, length, IfOk};
ghost use Rattle.night_text.specs.Buffer.{longest_line};
ghost use Rattle.pieces.specs.Feeding.{feed_left, end_left};

use model::image::Image;
use pieces::Fed;
use pieces_carried::Carried;
use std::io;

// One feed, and its lines. It takes a byte at least. Where the write fails the feed itself was done.
fn print_feed(
    rt: &impl Print,
    image: &mut Image,
    carried: Carried,
    piece: &[u8],
    out: &mut [u8],
) -> io::Result<Fed>
    requires { (longest_line ≤ length out.old) × (0 < length piece.now) }
    ensures fed { IfOk result (λ fed. (0 < fed.taken) × (fed.taken ≤ length piece.now)) }
    ensures image { image.new ≡ (feed_left carried image.old piece.now out.old).image }
    ensures out { out.new ≡ (feed_left carried image.old piece.now out.old).out }
{
    let fed = pieces::feed(image, carried, piece, out);
    rt.write_all(&out[..fed.printed])?;
    Ok(fed)
}

// A piece's lines. Whenever the output is full it is written, and the rest of the piece fed.
pub fn print_piece(
    rt: &impl Print,
    image: &mut Image,
    carried: Carried,
    piece: &[u8],
    out: &mut [u8],
) -> io::Result<Carried>
    requires { longest_line ≤ length out.old }
{
    let mut carried = carried;
    let mut from = 0;
    while from < piece.len() {
        let fed = print_feed(rt, image, carried, &piece[from..], out)?;
        from += fed.taken;
        carried = fed.carried;
    }
    Ok(carried)
}

// What the end prints. The output holds it also where the write fails.
pub fn print_end(rt: &impl Print, carried: Carried, out: &mut [u8]) -> io::Result<()>
    ensures { out.new ≡ (end_left carried out.old).out }
{
    let fed = pieces::finish(carried, out);
    rt.write_all(&out[..fed.printed])
}
