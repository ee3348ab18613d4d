// The path of a used lane, found in one number: the eight DPConfig bytes of the active set, a byte a lane.
#![tactic(auto)]

ghost use Rattle.std.specs.Prelude.{◌≡◌, true, ◌<◌};
ghost use Rattle.bits.specs.Sets.{lane_count};
ghost use Rattle.model.specs.Map.{active_set};
ghost use Rattle.model.specs.View.{of, settings_of, is_used, path_of};
ghost use Rattle.hardware_paths.specs.Bytewise.{bytewise, lowest_bits};

use model::image::Image;

// The lowest bit of every byte, and the bits of a DataPathID in its byte.
const LOWEST: u64 = 0x0101010101010101;

const ID_BITS: u8 = 0x0e;

// The lowest bits of eight bytes side by side, the first byte's lowest; the other bits are 0.
fn gather(lanes: u64) -> u8
    requires { lanes ≡ bytewise (lowest_bits lanes) }
    ensures { result ≡ lowest_bits lanes }
{
    let pairs = lanes | (lanes >> 7);
    let quads = pairs | (pairs >> 14);
    ((quads | (quads >> 28)) % 256) as u8
}

// The lanes of a used lane's path: those that have an AppSel, and in whose DataPathID no bit differs from the lane's.
pub fn path_of(image: &Image, lane: u8) -> u8
    requires { (lane < lane_count) × (is_used (of (settings_of active_set image.now) lane) ≡ true) }
    ensures { result ≡ path_of (settings_of active_set image.now) lane }
{
    let all = bits_low::word8(image, map::ACTIVE_SET);
    let id = image[map::ACTIVE_SET + (lane as usize)] & ID_BITS;
    let differ = all ^ ((id as u64) * LOWEST);
    let other = (differ >> 1) | (differ >> 2) | (differ >> 3);
    let used = ((all >> 4) | (all >> 5)) | ((all >> 6) | (all >> 7));
    gather(used & !other & LOWEST)
}
