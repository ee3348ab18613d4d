// A condition that lasts: the flags that it raises, and what is on after it.
#![tactic(auto)]

ghost use Rattle.std.specs.Prelude.{◌≡◌, true, ◌<◌};
ghost use Rattle.model.specs.Map.{lasting_count};
ghost use Rattle.model.specs.Records.{on_at, with_ons, with_flag_on};
ghost use Rattle.model.specs.Flags.{is_condition_flag, condition_on, lasting_state};
ghost use Rattle.model.specs.State.{state_with};
ghost use Rattle.contracts.specs.Forms.{IsState};

use model::image::Image;
use model::lane::Working;

// The flags that are on, with one more or one less.
pub fn with_flag(on: u16, flag: u8, yes: bool) -> u16
    requires { flag < lasting_count }
    ensures { result ≡ with_flag_on flag yes on }
{
    (on & !(1u16 << flag)) | ((yes as u16) << flag)
}

// What is on after a lasting condition of a flag: what was on and does not end, and what begins.
fn after_condition(w: Working, flag: u8, on: u8, off: u8) -> Working
    requires { flag < lasting_count }
    ensures { result ≡ with_ons w (λ l. condition_on flag on off l (on_at w l)) }
{
    let mut next = w;
    for (lane, record) in next.lanes.iter_mut().enumerate() {
        let was = records::is_on(record.on, flag);
        let ends = bits_sets::is_in(off, lane as u8);
        let begins = bits_sets::is_in(on, lane as u8);
        record.on = with_flag(record.on, flag, (was & !ends) | begins);
    }
    next
}

// A lasting condition: it raises the flags of its on mask and clears none, and both its masks change what is on.
pub fn condition(image: &mut Image, w: Working, flag: u8, on: u8, off: u8) -> Working
    requires { is_condition_flag flag ≡ true }
    ensures { IsState (lasting_state flag on off (state_with image.old w)) image.new result }
{
    flags::condition(image, flag, on);
    after_condition(w, map::lasting_index(flag), on, off)
}
