// Fields of a byte list. A field is a place: a byte, the field's lowest bit there, and its width.
#![tactic(auto)]

ghost use Rattle.std.specs.Prelude.{◌≡◌, ◌+◌, ◌^◌, ◌≤◌, ◌<◌, length};
ghost use Rattle.bits.specs.Number.{field, with_field};
ghost use Rattle.bits.specs.Place.{get, put};

// The bits shift .. shift + width - 1 of the byte.
#[derive(Clone, Copy)]
pub struct Place {
    pub byte: usize,
    pub shift: u8,
    pub width: u8,
}

// Two to the power n.
pub fn pow2(n: u8) -> u32
    requires { n < 32 }
    ensures { result ≡ 2 ^ n }
{
    1u32 << n
}

// The bits shift .. shift + width - 1 of a byte.
pub fn take_field(x: u8, shift: u8, width: u8) -> u8
    requires { width + shift ≤ 8 }
    ensures { result ≡ field x shift width }
{
    ((x as u32) / pow2(shift) % pow2(width)) as u8
}

// The byte with those bits replaced by the lowest ones of v.
pub fn put_field(x: u8, shift: u8, width: u8, v: u8) -> u8
    requires { width + shift ≤ 8 }
    ensures { result ≡ with_field x shift width v }
{
    let high = pow2(width + shift);
    let low = pow2(shift);
    let fit = (v as u32) % pow2(width);
    let x = x as u32;
    (x / high * high + (fit * low + x % low)) as u8
}

// What a place holds.
pub fn get(image: &[u8], place: Place) -> u8
    requires { (place.byte < length image.now) × (place.width + place.shift ≤ 8) }
    ensures { result ≡ get image.now place }
{
    let at = place.byte;
    take_field(image[at], place.shift, place.width)
}

// v put at a place.
pub fn put(image: &mut [u8], place: Place, v: u8)
    requires { (place.byte < length image.old) × (place.width + place.shift ≤ 8) }
    ensures { image.new ≡ put image.old place v }
{
    let at = place.byte;
    image[at] = put_field(image[at], place.shift, place.width, v);
}
