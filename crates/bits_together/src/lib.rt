// The bits of a set's lanes in one byte, set or cleared all at once.
#![tactic(auto)]

ghost use Rattle.std.specs.Prelude.{◌≡◌, ◌+◌, ◌≤◌, length};
ghost use Rattle.bits.specs.Place.{put};
ghost use Rattle.bits.specs.Lane.{lane_field};
ghost use Rattle.bits.specs.Loop.{each};
ghost use Rattle.bits.specs.Sets.{has, lane_count};

// The bits of a set's lanes set to 1, all at once.
#[tactic(auto, using(crate::proofs::Together::or_sets))]
pub fn set_bits(image: &mut [u8], at: usize, set: u8)
    requires { at + 1 ≤ length image.old }
    ensures { image.new ≡ each (has set) (λ l y. put y (lane_field at 1 l) 1) lane_count image.old }
{
    image[at] |= set;
}

// The bits of a set's lanes set to 0, all at once.
#[tactic(auto, using(crate::proofs::Together::and_clears))]
pub fn clear_bits(image: &mut [u8], at: usize, set: u8)
    requires { at + 1 ≤ length image.old }
    ensures { image.new ≡ each (has set) (λ l y. put y (lane_field at 1 l) 0) lane_count image.old }
{
    image[at] &= !set;
}
