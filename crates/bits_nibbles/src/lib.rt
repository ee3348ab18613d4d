// A value put into the nibbles of a set's lanes, all at once in one number of four bytes.
#![tactic(auto)]

ghost use Rattle.std.specs.Prelude.{◌≡◌, ◌+◌, ◌≤◌, length};
ghost use Rattle.bits.specs.Place.{put};
ghost use Rattle.bits.specs.Lane.{lane_field};
ghost use Rattle.bits.specs.Loop.{each};
ghost use Rattle.bits.specs.Sets.{has, lane_count};
ghost use Rattle.bits_nibbles.specs.Nibbles.{nibbles_of, put_low4};

// The nibbles of a set's lanes, all their bits 1: the lanes are moved apart by halves.
fn nibbles_of(set: u8) -> u32
    ensures { result ≡ nibbles_of set }
{
    let lanes = set as u32;
    let halves = (lanes | (lanes << 12)) & 0x000f000f;
    let pairs = (halves | (halves << 6)) & 0x03030303;
    let singles = (pairs | (pairs << 3)) & 0x11111111;
    singles * 15
}

// A number put into four bytes, the low one first: the compiler makes one store of it.
fn put_word4(image: &mut [u8], at: usize, v: u32)
    requires { at + 4 ≤ length image.old }
    ensures { image.new ≡ put_low4 image.old at v }
{
    image[at..at + 4].copy_from_slice(&v.to_le_bytes());
}

// v put into the nibble of each lane of a set.
pub fn put_nibbles(image: &mut [u8], at: usize, set: u8, v: u8)
    requires { at + 4 ≤ length image.old }
    ensures { image.new ≡ each (has set) (λ l y. put y (lane_field at 4 l) v) lane_count image.old }
{
    let lanes = nibbles_of(set);
    let old = bits_low::word4(image, at);
    let value = (v as u32) % 16 * 0x11111111;
    put_word4(image, at, (old & !lanes) | (value & lanes));
}
