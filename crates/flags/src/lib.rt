// Flags: conditions, and samples of received power.
#![tactic(auto)]

ghost use Rattle.std.specs.Prelude.{◌≡◌, ◌+◌, ◌≤◌, ◌<◌, length};
ghost use Rattle.model.specs.Flags.{is_condition_flag, condition_image, power, raised_image};
ghost use Rattle.bits.specs.Sets.{lane_count};
ghost use Rattle.flags.specs.Crossing.{crossing, IsSampled};

use model::image::Image;

// Page 11h: the flags that a sample may raise, and where samples are stored.
pub const HIGH_ALARM_FLAG: u8 = 149;

pub const LOW_ALARM_FLAG: u8 = 150;

pub const HIGH_WARNING_FLAG: u8 = 151;

pub const LOW_WARNING_FLAG: u8 = 152;

const RECEIVED_POWER: usize = map::PAGE_11 + (186 - 128);

// Whether a condition may name a flag byte.
pub fn is_condition_flag(flag: u8) -> bool
    ensures { result ≡ is_condition_flag flag }
{
    let at = flag as usize;
    map::within(at, 135, 138) | map::within(at, 147, 148)
}

// A condition sets the mask's bits of its flag byte.
pub fn condition(image: &mut Image, flag: u8, mask: u8)
    requires { 128 ≤ flag }
    ensures { image.new ≡ condition_image flag mask image.old }
{
    bits_together::set_bits(image, map::on(map::PAGE_11, flag), mask)
}

// A lane's bit of a flag byte, set where the test holds.
fn raise(image: &mut Image, test: bool, flag: u8, lane: u8)
    requires { (128 ≤ flag) × (lane < lane_count) }
    ensures { image.new ≡ raised_image test flag lane image.old }
{
    bits_together::set_bits(
        image,
        map::on(map::PAGE_11, flag),
        bits_sets::with_lane(0, lane, test),
    );
}

// A limit of received power: two bytes, the high one first.
fn limit(image: &[u8], at: usize) -> u16
    requires { at + 2 ≤ length image.now }
    ensures { result ≡ power image.now at }
{
    bits_words::word2(image, at)
}

// Which of the four limits a power lies beyond: above the high one, or below the low one, of the alarm and of the warning.
#[derive(Clone, Copy)]
pub struct Crossing {
    pub above_alarm: bool,
    pub below_alarm: bool,
    pub above_warning: bool,
    pub below_warning: bool,
}

// A power compared with the four limits.
fn compare(image: &Image, power: u16) -> Crossing
    ensures { result ≡ crossing image.now power }
{
    let high_alarm = limit(image, map::HIGH_ALARM);
    let low_alarm = limit(image, map::LOW_ALARM);
    let high_warning = limit(image, map::HIGH_WARNING);
    let low_warning = limit(image, map::LOW_WARNING);
    Crossing {
        above_alarm: high_alarm < power,
        below_alarm: power < low_alarm,
        above_warning: high_warning < power,
        below_warning: power < low_warning,
    }
}

// A sample of received power: stored, and the flags of the limits raised that it lies beyond.
pub fn sample(image: &mut Image, lane: u8, power: u16) -> Crossing
    requires { lane < lane_count }
    ensures { IsSampled lane power image.old image.new result }
{
    let beyond = compare(image, power);
    bits_words::put_word2(image, RECEIVED_POWER + 2 * (lane as usize), power);
    raise(image, beyond.above_alarm, HIGH_ALARM_FLAG, lane);
    raise(image, beyond.below_alarm, LOW_ALARM_FLAG, lane);
    raise(image, beyond.above_warning, HIGH_WARNING_FLAG, lane);
    raise(image, beyond.below_warning, LOW_WARNING_FLAG, lane);
    beyond
}
