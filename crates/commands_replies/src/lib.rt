// The reply to a command message: its length and code, and its bytes.
#![tactic(auto)]

ghost use Rattle.std.specs.Prelude.{◌≡◌, true, ◌+◌, ◌≤◌, length, set};
ghost use Rattle.bits.specs.Loop.{each};
ghost use Rattle.model.specs.Commands.{sum_of, body_limit, reply_byte, with_reply_header, replied_image};
ghost use Rattle.model.specs.Map.{body_address, message_body};
ghost use Rattle.model.specs.declared.command.Command.TheVariants.{QueryStatus, ModuleFeatures, FirmwareInfo};
ghost use Rattle.model.specs.declared.command.CommandStatus.TheVariants.{Success};

use commands_messages::MESSAGE_BODY;
use model::command::{Command, CommandStatus};
use model::image::Image;

// Lower 39, 40: the firmware's version.
const FIRMWARE_MAJOR: usize = 39;

const FIRMWARE_MINOR: usize = 40;

// Page 9Fh: the length and the code of the reply; the address of its body.
const REPLY_LENGTH: usize = map::PAGE_9F + (134 - 128);

const REPLY_CODE: usize = map::PAGE_9F + (135 - 128);

const BODY_ADDRESS: u8 = 136;

// A byte of the reply to 0000h: 136 holds the length of the reply.
fn query_status_byte(address: u8) -> u8
    ensures { result ≡ reply_byte 0 0 QueryStatus address }
{
    match address {
        136 => 2,
        _ => 0,
    }
}

// A byte of the reply to 0040h: a bit for each number from 138 on, 1 where the module knows the command.
fn module_features_byte(address: u8) -> u8
    ensures { result ≡ reply_byte 0 0 ModuleFeatures address }
{
    match address {
        138 => 0x01,
        146 => 0x03,
        _ => 0,
    }
}

// 0100h: an image that cannot be updated, told by its factory version.
const FACTORY_INFORMATION: u8 = 0x04;

// A byte of the reply to 0100h: 210 and 211 hold the firmware's version.
fn firmware_info_byte(address: u8, major: u8, minor: u8) -> u8
    ensures { result ≡ reply_byte major minor FirmwareInfo address }
{
    match address {
        137 => FACTORY_INFORMATION,
        210 => major,
        211 => minor,
        _ => 0,
    }
}

// The byte of a reply at an address of the page.
fn reply_byte(command: Command, address: u8, major: u8, minor: u8) -> u8
    ensures { result ≡ reply_byte major minor command address }
{
    match command {
        Command::QueryStatus => query_status_byte(address),
        Command::ModuleFeatures => module_features_byte(address),
        Command::FirmwareFeatures => 0,
        Command::FirmwareInfo => firmware_info_byte(address, major, minor),
    }
}

// The sum of a reply's bytes.
fn reply_sum(command: Command, count: u8, major: u8, minor: u8) -> u16
    requires { count ≤ body_limit }
    ensures { result ≡ sum_of count (λ k. reply_byte major minor command (body_address + k)) }
{
    (0..count)
        .map(|k| u16::from(reply_byte(command, BODY_ADDRESS + k, major, minor)))
        .sum()
}

// 134 and 135.
fn put_reply_header(image: &mut Image, count: u8, code: u8)
    ensures { image.new ≡ with_reply_header count code image.old }
{
    image[REPLY_LENGTH] = count;
    image[REPLY_CODE] = code;
}

// A reply's bytes from 136 on; what lies past them stays.
fn put_reply_body(image: &mut Image, command: Command, count: u8, major: u8, minor: u8)
    requires { count ≤ body_limit }
    ensures { image.new ≡ each (λ k. true) (λ k y. set y (message_body + k) (reply_byte major minor command (body_address + k))) count image.old }
{
    for k in 0..count {
        image[MESSAGE_BODY + (k as usize)] = reply_byte(command, BODY_ADDRESS + k, major, minor);
    }
}

// A command's reply: its header, then its body.
fn put_reply(image: &mut Image, command: Command)
    ensures { image.new ≡ replied_image (Success command) image.old }
{
    let major = image[FIRMWARE_MAJOR];
    let minor = image[FIRMWARE_MINOR];
    let count = command.reply_length();
    put_reply_header(
        image,
        count,
        commands_messages::check_code(reply_sum(command, count, major, minor)),
    );
    put_reply_body(image, command, count, major, minor);
}

// The reply to a message: without one, length and code are 0.
pub fn reply(image: &mut Image, status: CommandStatus)
    ensures { image.new ≡ replied_image status image.old }
{
    match status {
        CommandStatus::Success(command) => put_reply(image, command),
        CommandStatus::UnknownNumber => put_reply_header(image, 0, 0),
        CommandStatus::WrongCode => put_reply_header(image, 0, 0),
    }
}
