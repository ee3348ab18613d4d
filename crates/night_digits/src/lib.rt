// The characters of digits: of one by itself, and of two decimal ones as one number.
#![tactic(auto)]

ghost use Rattle.std.specs.Prelude.{◌≡◌, ◌/◌, ◌%◌, ◌<◌};
ghost use Rattle.model.specs.Text.{digit_text};

// A digit's character: the compiler makes a read-only table of it.
#[tactic(auto, using(crate::proofs::Characters::digit_at))]
pub fn digit(d: u8) -> u8
    requires { d < 16 }
    ensures { result ≡ digit_text d }
{
    b"0123456789abcdef"[d as usize]
}

// The characters of a number's two digits as one number, the first of them lowest.
pub fn two_digits(x: u32) -> u16
    requires { x < 100 }
    ensures { (result % 256 ≡ digit_text (x / 10)) × (result / 256 ≡ digit_text (x % 10)) }
{
    (0x3030 + x / 10 + 256 * (x % 10)) as u16
}
