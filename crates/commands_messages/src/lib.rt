// A command message on page 9Fh: whether its code is right, and what becomes of it.
#![tactic(auto)]

ghost use Rattle.std.specs.Prelude.{◌≡◌, ◌+◌, ◌≤◌, length, get_or};
ghost use Rattle.model.specs.Commands.{sum_of, check_code, body_limit, right_code, is_code_right, status_of};

use model::command::CommandStatus;
use model::image::Image;

// Page 9Fh: the command's number, the length of its body, the code of the message, and its body, which is where a reply has its own.
const COMMAND_NUMBER: usize = map::PAGE_9F + (128 - 128);

const BODY_LENGTH: usize = map::PAGE_9F + (132 - 128);

const MESSAGE_CODE: usize = map::PAGE_9F + (133 - 128);

pub const MESSAGE_BODY: usize = map::PAGE_9F + (136 - 128);

// The bytes of the header that are summed, up to its code; the most that a body has.
const SUMMED_HEADER: usize = 5;

const BODY_LIMIT: u8 = 120;

// The sum of bytes from an index on.
fn sum(image: &[u8], from: usize, count: usize) -> u16
    requires { (from + count ≤ length image.now) × (count ≤ body_limit) }
    ensures { result ≡ sum_of count (λ k. get_or image.now (from + k) 0) }
{
    (0..count).map(|k| u16::from(image[from + k])).sum()
}

// The ones' complement of a sum's low byte.
pub fn check_code(sum: u16) -> u8
    ensures { result ≡ check_code sum }
{
    255 - ((sum % 256) as u8)
}

// The code that a message with a body of so many bytes should have.
fn right_code(image: &Image, count: u8) -> u8
    requires { count ≤ body_limit }
    ensures { result ≡ right_code image.now count }
{
    let header = sum(image, COMMAND_NUMBER, SUMMED_HEADER);
    let body = sum(image, MESSAGE_BODY, count as usize);
    check_code(header + body)
}

// Whether the message's body has room on the page, and its code is right.
fn is_code_right(image: &Image) -> bool
    ensures { result ≡ is_code_right image.now }
{
    let count = image[BODY_LENGTH];
    if count > BODY_LIMIT {
        return false;
    }
    image[MESSAGE_CODE] == right_code(image, count)
}

// What becomes of the message: its code is asked first, then its number.
pub fn status_of(image: &Image) -> CommandStatus
    ensures { result ≡ status_of image.now }
{
    let number = bits_words::word2(image, COMMAND_NUMBER);
    if is_code_right(image) {
        return CommandStatus::from(number);
    }
    CommandStatus::WrongCode
}
