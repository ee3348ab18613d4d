// A byte of the image, which is judged at the last of them.
#![tactic(auto)]

ghost use Rattle.std.specs.Prelude.{◌≡◌, ◌+◌, ◌≤◌, ◌<◌, length, set};
ghost use Rattle.model.specs.Map.{image_length};
ghost use Rattle.model.specs.Refusals.{first_of, start_refusals};
ghost use Rattle.model.specs.Stream.{started_by, took_image};
ghost use Rattle.model.specs.declared.stream.Phase.TheVariants.{InImage};
ghost use Rattle.pieces_carried.specs.Carrying.{carried_by, IsTidy, Leaves};
ghost use Rattle.night_text.specs.Buffer.{longest_line};

use model::answer::Answer;
use model::image::Image;
use model::lane::Working;
use model::stream::Phase;
use pieces_carried::{Carried, Taken};

// A byte in its place of the image.
fn put_image_byte(image: &mut [u8], i: usize, b: u8)
    ensures { image.new ≡ set image.old i b }
{
    if i < image.len() {
        image[i] = b;
    }
}

// A whole image as it is laid out, by what start answers to it.
fn start(image: &mut Image, c: Carried, records: u32, out: &mut [u8], at: usize) -> Taken
    requires { at + longest_line ≤ length out.old }
    ensures { Leaves (started_by (first_of (start_refusals image.old)) (carried_by c image.old) records image.old) at out.old out.new image.new result }
{
    let answer = start_image::refusal(image);
    if answer != Answer::Done {
        return pieces_carried::refuse(answer, c, out, at);
    }
    start_image::reset(image);
    let carried = pieces_carried::entering(
        Phase::InRecords { next: 0, records },
        c.edition,
        Working::idle(),
    );
    Taken { at, carried }
}

// An image that is not whole yet, with one byte more.
fn more_image(c: Carried, come: u16, records: u32) -> Carried
    requires { come + 1 < image_length }
    ensures { result ≡ record { phase = InImage (come + 1) records; edition = c.edition; held = c.held; count = c.count; working = c.working } }
{
    Carried {
        phase: Phase::InImage {
            come: come + 1,
            records,
        },
        ..c
    }
}

// A byte of the image.
pub fn take_image(
    image: &mut Image,
    c: Carried,
    come: u16,
    records: u32,
    b: u8,
    out: &mut [u8],
    at: usize,
) -> Taken
    requires { IsTidy c × (at + longest_line ≤ length out.old) }
    ensures { Leaves (took_image (carried_by c image.old) come records (set image.old come b)) at out.old out.new image.new result }
{
    put_image_byte(image, come as usize, b);
    let length = night_file::image_bytes(c.edition);
    if (come as usize) + 1 < length {
        let carried = more_image(c, come, records);
        return Taken { at, carried };
    }
    night_image::clear_rest(image, length);
    start(image, c, records, out, at)
}
