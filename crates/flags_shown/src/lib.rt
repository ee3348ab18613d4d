// What is on shows again after a read that cleared its flag.
#![tactic(auto)]

ghost use Rattle.std.specs.Prelude.{◌≡◌, not, ◌+◌, ◌≤◌, ◌<◌, eqb};
ghost use Rattle.bits.specs.Loop.{any_below};
ghost use Rattle.bits.specs.Sets.{lane_count};
ghost use Rattle.model.specs.Map.{image_length, lasting_count};
ghost use Rattle.model.specs.Records.{on_at, on_lanes};
ghost use Rattle.model.specs.Flags.{is_read, shown_again_image};

use model::image::Image;
use model::lane::{LaneRecord, Working};

// Whether any flag is on.
fn is_any_on(w: Working) -> bool
    ensures { result ≡ any_below lane_count (λ l. not (eqb (on_at w l) 0)) }
{
    (0..LaneRecord::COUNT).any(|lane| records::on_at(w, lane) != 0)
}

// The lanes on which a flag is on.
fn on_lanes(w: Working, flag: u8) -> u8
    requires { flag < lasting_count }
    ensures { result ≡ on_lanes w flag }
{
    let mut lanes: u8 = 0;
    for lane in 0..LaneRecord::COUNT {
        let yes = records::is_on(records::on_at(w, lane), flag);
        lanes = bits_sets::with_lane(lanes, lane, yes);
    }
    lanes
}

// Whether a read of n bytes from an index on took a byte.
fn is_read(i: usize, n: usize, at: usize) -> bool
    requires { i + n ≤ image_length }
    ensures { result ≡ is_read i n at }
{
    (i <= at) & (at < i + n)
}

// The flags that can last among n bytes read from an index on, each with what is on.
fn show_bytes(image: &mut Image, w: Working, i: usize, n: usize)
    requires { i + n ≤ image_length }
    ensures { image.new ≡ shown_again_image w i n image.old }
{
    for flag in 0..map::LASTING_COUNT {
        let at = map::on(map::PAGE_11, map::lasting_flag(flag));
        if is_read(i, n, at) {
            bits_together::set_bits(image, at, on_lanes(w, flag));
        }
    }
}

// Of n bytes read from an index on, the flags that are on show again. The records are looked at only where a flag byte was read.
pub fn show_again(image: &mut Image, w: Working, i: usize, n: usize)
    requires { i + n ≤ image_length }
    ensures { image.new ≡ shown_again_image w i n image.old }
{
    if map::meets_flags(i, n) {
        if is_any_on(w) {
            show_bytes(image, w, i, n);
        }
    }
}
