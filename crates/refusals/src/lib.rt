// What is asked once of every call but start, and of a list: the refusals 1, 2 and 3.
#![tactic(auto)]

ghost use Rattle.std.specs.Prelude.{◌≡◌};
ghost use Rattle.model.specs.State.{state_with};
ghost use Rattle.model.specs.Refusals.{first_of, entry_refusals};

use model::answer::Answer;
use model::image::IMAGE_LENGTH;
use model::lane::Working;

// The first of the refusals 1, 2 and 3 that applies, or Done.
pub fn refusal(image: &[u8], w: Working) -> Answer
    ensures { result ≡ first_of (entry_refusals (state_with image.now w)) }
{
    if image.len() != IMAGE_LENGTH {
        return Answer::WrongLength;
    }
    let image = start_image::whole(image);
    if start_image::is_flat(image) {
        return Answer::FlatMemory;
    }
    if !sound::is_sound(image, w) {
        return Answer::Unsound;
    }
    Answer::Done
}
