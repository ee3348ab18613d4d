// The settings of a lane: read from a set of the register map, written to the active one, and what their parts say.
#![tactic(auto)]

ghost use Rattle.std.specs.Prelude.{◌≡◌, ◌+◌, ◌≤◌, ◌<◌, length};
ghost use Rattle.model.specs.View.{settings_at, app_sel, path_id, explicit, is_used};
ghost use Rattle.model.specs.Work.{by_module, written_settings, with_active};
ghost use Rattle.view_settings.specs.Parts.{with_part};
ghost use Rattle.model.specs.Map.{set_length};
ghost use Rattle.bits.specs.Sets.{lane_count};

use model::image::Image;
use model::lane::Settings;

// Where each setting lies in a set, from its base on: DPConfig a byte a lane, the enables a bit a lane, the rest a nibble a lane.
const CONFIG: usize = 0;

const ADAPTIVE: usize = 8;

const EQUALIZER: usize = 11;

const CDR_TX: usize = 15;

const CDR_RX: usize = 16;

const PRE: usize = 17;

const POST: usize = 21;

const AMPLITUDE: usize = 25;

// The settings of a lane in the set at a base.
pub fn settings_at(image: &[u8], base: usize, lane: u8) -> Settings
    requires { (base + set_length ≤ length image.now) × (lane < lane_count) }
    ensures { result ≡ settings_at base image.now lane }
{
    Settings {
        config: bits_lanes::lane_byte(image, base + CONFIG, lane),
        adaptive: bits_lanes::lane_bit(image, base + ADAPTIVE, lane),
        equalizer: bits_lanes::nibble(image, base + EQUALIZER, lane),
        cdr_tx: bits_lanes::lane_bit(image, base + CDR_TX, lane),
        cdr_rx: bits_lanes::lane_bit(image, base + CDR_RX, lane),
        pre: bits_lanes::nibble(image, base + PRE, lane),
        post: bits_lanes::nibble(image, base + POST, lane),
        amplitude: bits_lanes::nibble(image, base + AMPLITUDE, lane),
    }
}

// The first four active settings of a lane, in the order of the map.
fn put_first(image: &mut Image, lane: u8, h: Settings)
    requires { lane < lane_count }
    ensures { image.new ≡ with_part 0 4 h lane image.old }
{
    bits_lanes::put_lane_byte(image, map::ACTIVE_SET + CONFIG, lane, h.config);
    bits_lanes::put_lane_bit(image, map::ACTIVE_SET + ADAPTIVE, lane, h.adaptive);
    bits_lanes::put_nibble(image, map::ACTIVE_SET + EQUALIZER, lane, h.equalizer);
    bits_lanes::put_lane_bit(image, map::ACTIVE_SET + CDR_TX, lane, h.cdr_tx);
}

// The other four.
fn put_rest(image: &mut Image, lane: u8, h: Settings)
    requires { lane < lane_count }
    ensures { image.new ≡ with_part 4 4 h lane image.old }
{
    bits_lanes::put_lane_bit(image, map::ACTIVE_SET + CDR_RX, lane, h.cdr_rx);
    bits_lanes::put_nibble(image, map::ACTIVE_SET + PRE, lane, h.pre);
    bits_lanes::put_nibble(image, map::ACTIVE_SET + POST, lane, h.post);
    bits_lanes::put_nibble(image, map::ACTIVE_SET + AMPLITUDE, lane, h.amplitude);
}

// Every active setting of a lane replaced.
pub fn put_settings(image: &mut Image, lane: u8, h: Settings)
    requires { lane < lane_count }
    ensures { image.new ≡ with_active h lane image.old }
{
    put_first(image, lane, h);
    put_rest(image, lane, h);
}

// DPConfig holds AppSel in bits 7-4, DataPathID in 3-1 and ExplicitControl in 0.
pub fn app_sel(h: Settings) -> u8
    ensures { result ≡ app_sel h }
{
    bits::take_field(h.config, 4, 4)
}

pub fn path_id(h: Settings) -> u8
    ensures { result ≡ path_id h }
{
    bits::take_field(h.config, 1, 3)
}

pub fn explicit(h: Settings) -> u8
    ensures { result ≡ explicit h }
{
    bits::take_field(h.config, 0, 1)
}

// A lane is used if its AppSel is not 0.
pub fn is_used(h: Settings) -> bool
    ensures { result ≡ is_used h }
{
    app_sel(h) != 0
}

// With ExplicitControl 0 the settings are the module's own: bits 1 and nibbles 0.
fn by_module(h: Settings) -> Settings
    ensures { result ≡ by_module h }
{
    Settings {
        config: h.config,
        adaptive: 1,
        equalizer: 0,
        cdr_tx: 1,
        cdr_rx: 1,
        pre: 0,
        post: 0,
        amplitude: 0,
    }
}

// What copying writes: zeros for a release, the module's own settings with ExplicitControl 0, else what is held.
pub fn written(h: Settings) -> Settings
    ensures { result ≡ written_settings h }
{
    if is_used(h) {
        if explicit(h) == 1 { h } else { by_module(h) }
    } else {
        Settings {
            config: 0,
            adaptive: 0,
            equalizer: 0,
            cdr_tx: 0,
            cdr_rx: 0,
            pre: 0,
            post: 0,
            amplitude: 0,
        }
    }
}
