// The end of a write, after its last byte: the command that it runs, or the reset that it asks for.
#![tactic(auto)]

ghost use Rattle.std.specs.Prelude.{◌≡◌, length};
ghost use Rattle.contracts.specs.Forms.{IsState};
ghost use Rattle.model.specs.Access.{resets, ended_state};
ghost use Rattle.model.specs.Start.{reset_state};
ghost use Rattle.model.specs.State.{state_with};

use model::image::Image;
use model::lane::Working;

// Whether a write of these bytes from an address on resets the module: it writes lower 26 with SoftwareReset at 1.
fn resets(address: u8, bytes: &[u8]) -> bool
    ensures { result ≡ resets address bytes.now (length bytes.now) }
{
    let first = address as usize;
    if first > map::MODULE_CONTROLS {
        return false;
    }
    let k = map::MODULE_CONTROLS - first;
    if bytes.len() <= k {
        return false;
    }
    bits::take_field(bytes[k], map::SOFTWARE_RESET, 1) == 1
}

// The module starts anew: the image, and all lanes idle with nothing on. The low-power line is as it was.
fn reset(image: &mut Image, w: Working) -> Working
    ensures { IsState (reset_state (state_with image.old w)) image.new result }
{
    start_image::reset(image);
    records::with_line(Working::idle(), w.line)
}

// What a write of these bytes from an address on does after its last byte.
pub fn end_write(image: &mut Image, w: Working, address: u8, bytes: &[u8]) -> Working
    ensures { IsState (ended_state address bytes.now (length bytes.now) (state_with image.old w)) image.new result }
{
    if resets(address, bytes) {
        return reset(image, w);
    }
    commands::end_write(image, address, bytes.len());
    w
}
