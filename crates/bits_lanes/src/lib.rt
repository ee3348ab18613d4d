// The fields of the lanes, a bit, a nibble or a byte each; a value put into the field of each lane of a set.
#![tactic(auto)]

ghost use Rattle.std.specs.Prelude.{◌≡◌, ◌+◌, ◌%◌, ◌≤◌, ◌<◌, length};
ghost use Rattle.bits.specs.Place.{get, put};
ghost use Rattle.bits.specs.Lane.{lane_field};
ghost use Rattle.bits.specs.Loop.{each};
ghost use Rattle.bits.specs.Sets.{has, lane_count};

// A lane's bit of one byte.
pub fn lane_bit(image: &[u8], base: usize, lane: u8) -> u8
    requires { (base + 1 ≤ length image.now) × (lane < lane_count) }
    ensures { result ≡ get image.now (lane_field base 1 lane) }
{
    bits_fields::get_lane(image, base, 1, lane)
}

pub fn put_lane_bit(image: &mut [u8], base: usize, lane: u8, v: u8)
    requires { (base + 1 ≤ length image.old) × (lane < lane_count) }
    ensures { image.new ≡ put image.old (lane_field base 1 lane) v }
{
    bits_fields::put_lane(image, base, 1, lane, v)
}

// A lane's nibble in four bytes.
pub fn nibble(image: &[u8], base: usize, lane: u8) -> u8
    requires { (base + 4 ≤ length image.now) × (lane < lane_count) }
    ensures { result ≡ get image.now (lane_field base 4 lane) }
{
    bits_fields::get_lane(image, base, 4, lane)
}

pub fn put_nibble(image: &mut [u8], base: usize, lane: u8, v: u8)
    requires { (base + 4 ≤ length image.old) × (lane < lane_count) }
    ensures { image.new ≡ put image.old (lane_field base 4 lane) v }
{
    bits_fields::put_lane(image, base, 4, lane, v)
}

// A lane's byte of eight.
pub fn lane_byte(image: &[u8], base: usize, lane: u8) -> u8
    requires { (base + 8 ≤ length image.now) × (lane < lane_count) }
    ensures { result ≡ get image.now (lane_field base 8 lane) }
{
    bits_fields::get_lane(image, base, 8, lane)
}

pub fn put_lane_byte(image: &mut [u8], base: usize, lane: u8, v: u8)
    requires { (base + 8 ≤ length image.old) × (lane < lane_count) }
    ensures { image.new ≡ put image.old (lane_field base 8 lane) v }
{
    bits_fields::put_lane(image, base, 8, lane, v)
}

// v put into the field of each lane of a set.
pub fn put_each(image: &mut [u8], base: usize, width: u8, set: u8, v: u8)
    requires { (base + width ≤ length image.old) × (8 % width ≡ 0) }
    ensures { image.new ≡ each (has set) (λ l y. put y (lane_field base width l) v) lane_count image.old }
{
    for lane in 0..bits_sets::LANES {
        if bits_sets::is_in(set, lane) {
            bits_fields::put_lane(image, base, width, lane, v);
        }
    }
}
