// What the module's power asks of it: LowPwrS, whether every lane is DPDeactivated, and whether every path is held down.
#![tactic(auto)]

ghost use Rattle.std.specs.Prelude.{◌≡◌};
ghost use Rattle.model.specs.Power.{shown_module_state, is_low_power, is_dark, holds_down};

use bits::Place;
use model::image::Image;
use model::path::PathState;
use model::power::ModuleState;

// Bits of lower 26: LowPwrAllowRequestHW and LowPwrRequestSW.
const LOW_PWR_ALLOW: u8 = 6;

const LOW_PWR_REQUEST: u8 = 4;

// Lower 3, bits 3-1: the module's state.
pub const STATE: Place = Place {
    byte: map::MODULE_STATE,
    shift: 1,
    width: 3,
};

// The state that lower 3 shows.
pub fn shown_state(image: &Image) -> ModuleState
    ensures { result ≡ shown_module_state image.now }
{
    ModuleState::from(bits::get(image, STATE))
}

// LowPwrS: the host asks for low power, or allows the low-power line to ask and the line is on.
pub fn is_low_power(image: &Image, line: bool) -> bool
    ensures { result ≡ is_low_power line image.now }
{
    let controls = image[map::MODULE_CONTROLS];
    let requested = bits::take_field(controls, LOW_PWR_REQUEST, 1) == 1;
    let allowed = bits::take_field(controls, LOW_PWR_ALLOW, 1) == 1;
    requested | (allowed & line)
}

// Whether every lane is DPDeactivated.
pub fn is_dark(image: &Image) -> bool
    ensures { result ≡ is_dark image.now }
{
    view_paths::lanes_in_state(image, PathState::DEACTIVATED) == bits_sets::ALL
}

// Whether the module holds every path down: it is not in ModuleReady, or it is to be in low power.
pub fn holds_down(image: &Image, line: bool) -> bool
    ensures { result ≡ holds_down line image.now }
{
    (shown_state(image) != ModuleState::Ready) | is_low_power(image, line)
}
