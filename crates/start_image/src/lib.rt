// Start: the images that it refuses, what stays of one that it takes, and what is set.
#![tactic(auto)]

ghost use Rattle.std.specs.Prelude.{◌≡◌, length};
ghost use Rattle.model.specs.Map.{image_length};
ghost use Rattle.model.specs.Refusals.{first_of, is_flat, is_back_to_front, start_refusals};
ghost use Rattle.model.specs.Start.{start_value, started_state};

use bits::Place;
use model::answer::Answer;
use model::image::{IMAGE_LENGTH, Image};

// Whether the memory is flat: MemoryModel, lower 2.7.
pub fn is_flat(image: &Image) -> bool
    ensures { result ≡ is_flat image.now }
{
    let model = Place {
        byte: 2,
        shift: 7,
        width: 1,
    };
    bits::get(image, model) == 1
}

// Whether the limits of received power are back to front: one above the next in the order low alarm, low warning, high warning, high alarm.
fn is_back_to_front(image: &Image) -> bool
    ensures { result ≡ is_back_to_front image.now }
{
    let low_alarm = bits_words::word2(image, map::LOW_ALARM);
    let low_warning = bits_words::word2(image, map::LOW_WARNING);
    let high_warning = bits_words::word2(image, map::HIGH_WARNING);
    let high_alarm = bits_words::word2(image, map::HIGH_ALARM);
    (low_alarm > low_warning) | ((low_warning > high_warning) | (high_warning > high_alarm))
}

// Bytes as many as an image has, as one.
pub fn whole(bytes: &[u8]) -> &Image
    requires { length bytes.now ≡ image_length }
    ensures { result.now ≡ bytes.now }
{
    let (images, _) = bytes.as_chunks();
    &images[0]
}

// What start has against an image, or that it takes it.
pub fn refusal(image: &[u8]) -> Answer
    ensures { result ≡ first_of (start_refusals image.now) }
{
    if image.len() != IMAGE_LENGTH {
        return Answer::WrongLength;
    }
    let image = whole(image);
    if is_flat(image) {
        return Answer::FlatMemory;
    }
    if is_back_to_front(image) {
        return Answer::BackToFront;
    }
    Answer::Done
}

// Lower 3: ModuleLowPwr, no interrupt. Lower 26: the low-power line may ask for low power. 11h:128-131: DPDeactivated, two lanes a byte.
const LOW_POWERED: u8 = 0x03;

const LINE_ALLOWED: u8 = 0x40;

const ALL_DEACTIVATED: u8 = 0x11;

// What start sets in a byte that it does not keep.
fn start_value(i: usize) -> u8
    ensures { result ≡ start_value i }
{
    if i == map::MODULE_STATE {
        return LOW_POWERED;
    }
    if i == map::MODULE_CONTROLS {
        return LINE_ALLOWED;
    }
    if map::on_page(i, map::PAGE_11, 128, 131) {
        return ALL_DEACTIVATED;
    }
    0
}

// The image that a module starts with.
pub fn reset(image: &mut Image)
    ensures { image.new ≡ (started_state image.old).image }
{
    for (i, byte) in image.iter_mut().enumerate() {
        if !map::kept(i) {
            *byte = start_value(i);
        }
    }
}
