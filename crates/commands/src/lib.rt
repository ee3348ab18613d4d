// Command messages on page 9Fh: a write that reaches 129 there runs the command that the page holds, after its last byte.
#![tactic(auto)]

ghost use Rattle.std.specs.Prelude.{◌≡◌};
ghost use Rattle.bits.specs.Choice.{only_if};
ghost use Rattle.model.specs.Access.{runs_command};
ghost use Rattle.model.specs.Commands.{completed_image, command_image};

use bits::Place;
use model::command::CommandStatus;
use model::image::Image;

// Lower 37: CdbStatus1.
const COMMAND_STATUS: usize = 37;

// A write of this address runs the command.
pub const RUN_ADDRESS: usize = 129;

// The status of a message, and the flag that it is done with: CdbCmdCompleteFlag1, lower 8.6.
fn complete(image: &mut Image, status: CommandStatus)
    ensures { image.new ≡ completed_image status image.old }
{
    image[COMMAND_STATUS] = u8::from(status);
    bits::put(
        image,
        Place {
            byte: map::MODULE_FLAGS,
            shift: 6,
            width: 1,
        },
        1,
    )
}

// The command that the page holds.
fn run(image: &mut Image)
    ensures { image.new ≡ command_image image.old }
{
    let status = commands_messages::status_of(image);
    commands_replies::reply(image, status);
    complete(image, status);
}

// Whether a write of so many bytes from an address on runs a command: the address is asked first, as most writes are elsewhere.
fn runs_command(image: &Image, address: u8, count: usize) -> bool
    ensures { result ≡ runs_command address count image.now }
{
    let first = address as usize;
    if first > RUN_ADDRESS {
        return false;
    }
    if count <= RUN_ADDRESS - first {
        return false;
    }
    pages::half_start(image, RUN_ADDRESS) == map::PAGE_9F
}

// What a write of so many bytes from an address on does after its last byte.
pub fn end_write(image: &mut Image, address: u8, count: usize)
    ensures { image.new ≡ only_if (runs_command address count image.old) command_image image.old }
{
    if runs_command(image, address, count) {
        run(image);
    }
}
