// A sample of received power: the flags that it raises, and what is on after it.
#![tactic(auto)]

ghost use Rattle.std.specs.Prelude.{◌≡◌, ◌<◌};
ghost use Rattle.bits.specs.Sets.{lane_count};
ghost use Rattle.model.specs.Flags.{sampled_state};
ghost use Rattle.model.specs.State.{state_with};
ghost use Rattle.contracts.specs.Forms.{IsState};
ghost use Rattle.flags_sampled.specs.Beyond.{beyond_on};

use flags::Crossing;
use model::image::Image;
use model::lane::Working;

// The flags of received power among those that can last, counted from 0.
const HIGH_ALARM: u8 = flags::HIGH_ALARM_FLAG - map::LATER_LASTING;

const LOW_ALARM: u8 = flags::LOW_ALARM_FLAG - map::LATER_LASTING;

const HIGH_WARNING: u8 = flags::HIGH_WARNING_FLAG - map::LATER_LASTING;

const LOW_WARNING: u8 = flags::LOW_WARNING_FLAG - map::LATER_LASTING;

// What is on of a lane's flags after a sample: of the four of received power, those of the limits that it lies beyond.
fn after_sample(on: u16, beyond: Crossing) -> u16
    ensures { result ≡ beyond_on beyond on }
{
    let first = flags_lasting::with_flag(on, HIGH_ALARM, beyond.above_alarm);
    let second = flags_lasting::with_flag(first, LOW_ALARM, beyond.below_alarm);
    let third = flags_lasting::with_flag(second, HIGH_WARNING, beyond.above_warning);
    flags_lasting::with_flag(third, LOW_WARNING, beyond.below_warning)
}

// A sample of received power: stored and compared, and its lane's four flags are on where it says so.
pub fn sample(image: &mut Image, w: Working, lane: u8, power: u16) -> Working
    requires { lane < lane_count }
    ensures { IsState (sampled_state lane power (state_with image.old w)) image.new result }
{
    let beyond = flags::sample(image, lane, power);
    let mut next = w;
    let i = lane as usize;
    let own = after_sample(next.lanes[i].on, beyond);
    next.lanes[i].on = own;
    next
}
