// The signals that a path's lanes give: S, R and D.
#![tactic(auto)]

ghost use Rattle.std.specs.Prelude.{◌≡◌, ◌+◌, ◌≤◌, length};
ghost use Rattle.bits.specs.Lane.{lane_field};
ghost use Rattle.model.specs.Hardware.{some_bit, to_deinit, to_reinit, to_deactivate, signals_of};

use model::image::Image;
use model::path::Signals;

// Whether a lane of the set has its bit of a byte 1.
fn some_bit(image: &[u8], at: usize, set: u8) -> bool
    requires { at + 1 ≤ length image.now }
    ensures { result ≡ some_bit image.now (lane_field at 1) set }
{
    bits_sets::meets(set, image[at])
}

// S: the module holds every path down, or a DPDeinit bit of the path is 1.
fn to_deinit(image: &Image, down: bool, path: u8) -> bool
    ensures { result ≡ to_deinit down image.now path }
{
    down | some_bit(image, map::DEINIT, path)
}

// R: S, or a DPInitPending bit of the path is 1.
fn to_reinit(image: &Image, down: bool, path: u8) -> bool
    ensures { result ≡ to_reinit down image.now path }
{
    to_deinit(image, down, path) | some_bit(image, map::PENDING, path)
}

// D: R, or an OutputDisableTx or OutputSquelchForceTx bit of the path is 1.
fn to_deactivate(image: &Image, down: bool, path: u8) -> bool
    ensures { result ≡ to_deactivate down image.now path }
{
    let disabled = some_bit(image, map::OUTPUT_DISABLE, path);
    let squelched = some_bit(image, map::SQUELCH_FORCE, path);
    to_reinit(image, down, path) | (disabled | squelched)
}

// The signals of a path, in a module that holds every path down or does not.
pub fn signals_of(image: &Image, down: bool, path: u8) -> Signals
    ensures { result ≡ signals_of down image.now path }
{
    let deinit = to_deinit(image, down, path);
    let reinit = to_reinit(image, down, path);
    let deactivate = to_deactivate(image, down, path);
    Signals {
        deinit,
        reinit,
        deactivate,
    }
}
