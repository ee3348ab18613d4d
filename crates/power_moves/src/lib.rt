// The module event, which moves the module one state on.
#![tactic(auto)]

ghost use Rattle.std.specs.Prelude.{◌≡◌};
ghost use Rattle.model.specs.Power.{next_module_state, is_flagged, module_entered_image, module_moved_image, module_image};

use bits::Place;
use model::image::Image;
use model::power::ModuleState;

// The state that follows, by LowPwrS and by whether every lane is DPDeactivated.
fn next_state(from: ModuleState, low: bool, dark: bool) -> ModuleState
    ensures { result ≡ next_module_state from low dark }
{
    match from {
        ModuleState::Other => ModuleState::Other,
        ModuleState::LowPwr => if low {
            ModuleState::LowPwr
        } else {
            ModuleState::PwrUp
        },
        ModuleState::PwrUp => if low {
            ModuleState::PwrDn
        } else {
            ModuleState::Ready
        },
        ModuleState::Ready => if low & dark {
            ModuleState::PwrDn
        } else {
            ModuleState::Ready
        },
        ModuleState::PwrDn => ModuleState::LowPwr,
    }
}

// Whether entering a state sets ModuleStateChangedFlag.
fn is_flagged(to: ModuleState, low: bool) -> bool
    ensures { result ≡ is_flagged to low }
{
    match to {
        ModuleState::Other => false,
        ModuleState::LowPwr => low,
        ModuleState::PwrUp => false,
        ModuleState::Ready => true,
        ModuleState::PwrDn => false,
    }
}

// The module enters a state.
fn enter(image: &mut Image, to: ModuleState, low: bool)
    ensures { image.new ≡ module_entered_image to low image.old }
{
    bits::put(image, power_signals::STATE, u8::from(to));
    if is_flagged(to, low) {
        bits::put(
            image,
            Place {
                byte: map::MODULE_FLAGS,
                shift: 0,
                width: 1,
            },
            1,
        );
    }
}

// A module that stays enters nothing.
fn move_to(image: &mut Image, from: ModuleState, to: ModuleState, low: bool)
    ensures { image.new ≡ module_moved_image from to low image.old }
{
    if from != to {
        enter(image, to, low);
    }
}

// The module event, beside the low-power line.
pub fn move_module(image: &mut Image, line: bool)
    ensures { image.new ≡ module_image line image.old }
{
    let from = power_signals::shown_state(image);
    let low = power_signals::is_low_power(image, line);
    let dark = power_signals::is_dark(image);
    let to = next_state(from, low, dark);
    move_to(image, from, to, low);
}
