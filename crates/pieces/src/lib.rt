// A night in pieces: begun, fed piece by piece, and finished. The image is lent; what else is carried goes in and comes back by value.
#![tactic(auto)]

ghost use Rattle.std.specs.Prelude.{◌≡◌, []};
ghost use Rattle.model.specs.Stream.{begun};
ghost use Rattle.pieces_carried.specs.Carrying.{kept};
ghost use Rattle.pieces.specs.Feeding.{feed_left, end_left, IsFed};

use model::answer::Answer;
use night_lines::LONGEST_LINE;
use pieces_carried::Carried;

// What a feed and the end hand back: an answer, the bytes taken and printed, and what is carried on.
#[derive(Clone, Copy)]
pub struct Fed {
    pub answer: Answer,
    pub taken: usize,
    pub printed: usize,
    pub carried: Carried,
}

// Before the first byte.
pub fn begin() -> Carried
    ensures { result ≡ kept (begun []) }
{
    pieces_carried::begun()
}

// A refusal: nothing is taken and nothing changes.
fn refused(answer: Answer, carried: Carried) -> Fed
    ensures { result ≡ record { answer = answer; taken = 0; printed = 0; carried = carried } }
{
    Fed {
        answer,
        taken: 0,
        printed: 0,
        carried,
    }
}

// A piece. Bytes are taken while the output has room for a longest line; the rest is fed again when it was emptied.
pub fn feed(image: &mut [u8], carried: Carried, piece: &[u8], out: &mut [u8]) -> Fed
    ensures { IsFed (feed_left carried image.old piece.now out.old) result image.new out.new }
{
    let Some(image) = image.as_mut_array() else {
        return refused(Answer::WrongLength, carried);
    };
    if out.len() < LONGEST_LINE {
        return refused(Answer::ShortBuffer, carried);
    }
    let f = pieces_onward::take_piece(image, carried, piece, out);
    Fed {
        answer: Answer::Done,
        taken: f.taken,
        printed: f.come.at,
        carried: f.come.carried,
    }
}

// The end of the night.
pub fn finish(carried: Carried, out: &mut [u8]) -> Fed
    ensures { IsFed (end_left carried out.old) result [] out.new }
{
    if out.len() < LONGEST_LINE {
        return refused(Answer::ShortBuffer, carried);
    }
    let c = pieces_carried::tidied(carried);
    let t = pieces_end::end(c, out);
    Fed {
        answer: Answer::Done,
        taken: 0,
        printed: t.at,
        carried: t.carried,
    }
}
