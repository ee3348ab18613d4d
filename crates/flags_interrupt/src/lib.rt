// The interrupt bit: lower 3.0, settled by the flags that no mask bit covers.
#![tactic(auto)]

ghost use Rattle.std.specs.Prelude.{◌≡◌, not, ◌+◌, ◌≤◌, eqb};
ghost use Rattle.bits.specs.Loop.{any_below};
ghost use Rattle.model.specs.Flags.{interrupts, settled_image};
ghost use Rattle.model.specs.Map.{flag_byte_count};
ghost use Rattle.flags_interrupt.specs.Open.{open_at};

use bits::Place;
use model::image::Image;

// Lower 31, the masks of the module's own flags, and the bits of theirs that count: CdbCmdCompleteFlag1 and ModuleStateChangedFlag.
const MODULE_MASKS: usize = 31;

const COUNTED_FLAGS: u8 = 0x41;

// The flag bytes' masks, 10h:213-232.
const FLAG_MASKS: usize = map::PAGE_10 + (213 - 128);

// The flags of eight bytes that no mask bit covers.
fn open8(image: &Image, k: usize) -> u64
    requires { k + 8 ≤ flag_byte_count }
    ensures { not (eqb result 0) ≡ any_below 8 (λ j. open_at image.now (k + j)) }
{
    bits_low::word8(image, map::FLAG_BYTES + k) & !bits_low::word8(image, FLAG_MASKS + k)
}

// The flags of four bytes that no mask bit covers.
fn open4(image: &Image, k: usize) -> u32
    requires { k + 4 ≤ flag_byte_count }
    ensures { not (eqb result 0) ≡ any_below 4 (λ j. open_at image.now (k + j)) }
{
    bits_low::word4(image, map::FLAG_BYTES + k) & !bits_low::word4(image, FLAG_MASKS + k)
}

// Whether the interrupt is due: the flags that no mask bit covers, all twenty bytes and the module's own gathered in one number.
fn is_due(image: &Image) -> bool
    ensures { result ≡ interrupts image.now }
{
    let own = image[map::MODULE_FLAGS] & COUNTED_FLAGS & !image[MODULE_MASKS];
    let due = (open8(image, 0) | open8(image, 8)) | (open4(image, 16) as u64);
    ((own as u64) | due) != 0
}

// Lower 3.0: 0 exactly while the interrupt is due.
pub fn settle(image: &mut Image)
    ensures { image.new ≡ settled_image image.old }
{
    let quiet = !is_due(image);
    bits::put(
        image,
        Place {
            byte: map::MODULE_STATE,
            shift: 0,
            width: 1,
        },
        quiet as u8,
    )
}
