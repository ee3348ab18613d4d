// The field of a lane, of any width that divides eight, at one formula over base, width and lane: its place, and get and put there.
#![tactic(auto)]

ghost use Rattle.std.specs.Prelude.{◌≡◌, ◌+◌, ◌%◌, ◌^◌, ◌≤◌, ◌<◌, length};
ghost use Rattle.bits.specs.Place.{get, put};
ghost use Rattle.bits.specs.Lane.{lane_field};
ghost use Rattle.bits.specs.Sets.{lane_count};

use bits::Place;

// The place of a lane's field.
fn lane_field(base: usize, width: u8, lane: u8) -> Place
    requires { (base + width < 2 ^ 64) × (lane < lane_count) × (8 % width ≡ 0) }
    ensures { result ≡ lane_field base width lane }
{
    let bit = lane * width;
    Place {
        byte: base + (bit as usize) / 8,
        shift: bit % 8,
        width: width,
    }
}

// What a lane's field holds.
pub fn get_lane(image: &[u8], base: usize, width: u8, lane: u8) -> u8
    requires { (base + width ≤ length image.now) × (lane < lane_count) × (8 % width ≡ 0) }
    ensures { result ≡ get image.now (lane_field base width lane) }
{
    bits::get(image, lane_field(base, width, lane))
}

// v put into a lane's field.
pub fn put_lane(image: &mut [u8], base: usize, width: u8, lane: u8, v: u8)
    requires { (base + width ≤ length image.old) × (lane < lane_count) × (8 % width ≡ 0) }
    ensures { image.new ≡ put image.old (lane_field base width lane) v }
{
    bits::put(image, lane_field(base, width, lane), v)
}
