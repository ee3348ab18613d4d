// Sets of lanes, a bit for each in a byte.
#![tactic(auto)]

ghost use Rattle.std.specs.Prelude.{◌≡◌, ◌≤◌, ◌<◌, ltb};
ghost use mir.Val.{bool_byte};
ghost use Rattle.bits.specs.Number.{with_field};
ghost use Rattle.bits.specs.Sets.{has, mask_of, next_in, lane_count, within, some_in, every_in};

// How many lanes there are, and the set of them all.
pub const LANES: u8 = 8;

pub const ALL: u8 = 255;

// Whether a set has a lane.
pub fn is_in(set: u8, lane: u8) -> bool
    requires { lane < lane_count }
    ensures { result ≡ has set lane }
{
    bits::take_field(set, lane, 1) == 1
}

// The set with a lane in it or not.
pub fn with_lane(set: u8, lane: u8, yes: bool) -> u8
    requires { lane < lane_count }
    ensures { result ≡ with_field set lane 1 (bool_byte yes) }
{
    (set & !(1u8 << lane)) | ((yes as u8) << lane)
}

// The set's first lane from `from` on, or the lane count.
pub fn next_in(set: u8, from: u8) -> u8
    requires { from ≤ lane_count }
    ensures { result ≡ next_in lane_count set from }
{
    for lane in from..LANES {
        if is_in(set, lane) {
            return lane;
        }
    }
    LANES
}

// Whether two sets share a lane.
pub fn meets(a: u8, b: u8) -> bool
    ensures { result ≡ some_in a (has b) }
{
    a & b != 0
}

// Whether each lane of a set is in another.
pub fn lies_in(a: u8, b: u8) -> bool
    ensures { result ≡ every_in a (has b) }
{
    a & !b == 0
}

// The lanes below an end.
pub fn lanes_below(end: u16) -> u8
    ensures { result ≡ mask_of lane_count (λ m. ltb m end) }
{
    if (LANES as u16) <= end {
        return ALL;
    }
    (bits::pow2(end as u8) - 1) as u8
}

// The lanes first .. first + count - 1.
pub fn lanes_from(first: u8, count: u8) -> u8
    ensures { result ≡ mask_of lane_count (within first count) }
{
    let end = (first as u16) + (count as u16);
    !lanes_below(first as u16) & lanes_below(end)
}
