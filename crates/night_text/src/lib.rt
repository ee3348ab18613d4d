// The text of a line, put into a lent buffer: each put starts where the one before it ended.
// Division by ten is for text alone.
#![tactic(auto)]

ghost use Rattle.std.specs.Prelude.{◌≡◌, [], ◌∷◌, ◌+◌, ◌*◌, ◌/◌, ◌%◌, ◌≤◌, ◌<◌, length, take};
ghost use Rattle.model.specs.Text.{ascii, space, digit_text, decimal, hex_bytes, line, bad_line};
ghost use Rattle.night_text.specs.Buffer.{Puts};
ghost use Rattle.night_text.specs.Digits.{digits_of};
ghost use Rattle.night_text.specs.Lines.{Adds};

const SPACE: u8 = 0x20;

const NEWLINE: u8 = 0x0a;

// A lent buffer, and where the next byte of its text goes.
#[derive(Drop)]
struct Line<'a> {
    out: &'a mut [u8],
    at: usize,
}

impl<'a> Line<'a> {
    // Bytes, in one copy.
    fn bytes<const N: usize>(&mut self, bytes: [u8; N])
        requires { self.old.at + N ≤ length self.old.out.now }
        ensures { Adds bytes.entry self.old self.new }
    {
        let at = self.at;
        self.out[at..at + N].copy_from_slice(&bytes);
        self.at = at + N;
    }

    // Two digits: the compiler makes one store of them.
    fn two(&mut self, x: u32)
        requires { (x < 100) × (self.old.at + 2 ≤ length self.old.out.now) }
        ensures { Adds (digits_of 2 x) self.old self.new }
    {
        self.bytes(night_digits::two_digits(x).to_le_bytes());
    }

    // Three digits.
    fn three(&mut self, x: u32)
        requires { (x < 1000) × (self.old.at + 3 ≤ length self.old.out.now) }
        ensures { Adds (digits_of 3 x) self.old self.new }
    {
        self.bytes([night_digits::digit((x / 100) as u8)]);
        self.two(x % 100);
    }

    // Four digits, likewise: the number less its tenths, a digit a byte.
    fn four(&mut self, x: u32)
        requires { (x < 10000) × (self.old.at + 4 ≤ length self.old.out.now) }
        ensures { Adds (digits_of 4 x) self.old self.new }
    {
        let n = x as u64;
        let over = 2559 * (n / 1000) + 655104 * (n / 100) + 167706624 * (n / 10);
        let text = (0x30303030 + 16777216 * n - over) as u32;
        self.bytes(text.to_le_bytes());
    }

    // A number of up to four digits in decimal.
    #[tactic(auto, using(crate::proofs::Decimals::decimals))]
    fn few(&mut self, x: u32)
        requires { (x < 10000) × (self.old.at + length (decimal x) ≤ length self.old.out.now) }
        ensures { Adds (decimal x) self.old self.new }
    {
        if 999 < x {
            return self.four(x);
        }
        if 99 < x {
            return self.three(x);
        }
        if 9 < x {
            return self.two(x);
        }
        self.bytes([night_digits::digit(x as u8)]);
    }

    // .. of up to eight.
    #[tactic(auto, using(crate::proofs::Decimals::length_parts))]
    fn many(&mut self, x: u32)
        requires { (x < 100000000) × (self.old.at + length (decimal x) ≤ length self.old.out.now) }
        ensures { Adds (decimal x) self.old self.new }
    {
        if x < 10000 {
            return self.few(x);
        }
        self.few(x / 10000);
        self.four(x % 10000);
    }

    // A record's index in decimal.
    #[tactic(auto, using(crate::proofs::Decimals::length_parts))]
    fn index(&mut self, x: u32)
        requires { self.old.at + length (decimal x) ≤ length self.old.out.now }
        ensures { Adds (decimal x) self.old self.new }
    {
        if x < 10000 {
            return self.few(x);
        }
        self.many(x / 10000);
        self.four(x % 10000);
    }

    // An answer in decimal. Most are one digit.
    #[tactic(auto, using(crate::proofs::Decimals::decimals))]
    fn answer(&mut self, x: u8)
        requires { self.old.at + length (decimal x) ≤ length self.old.out.now }
        ensures { Adds (decimal x) self.old self.new }
    {
        if x < 10 {
            return self.bytes([night_digits::digit(x)]);
        }
        self.few(x as u32);
    }

    // Bytes in hex, each as a space and two digits.
    fn hex(&mut self, bytes: &[u8])
        requires { self.old.at + 3 * length bytes.now ≤ length self.old.out.now }
        ensures { Adds (hex_bytes bytes.now) self.old self.new }
    {
        for b in bytes {
            let high = night_digits::digit(*b / 16);
            let low = night_digits::digit(*b % 16);
            self.bytes([SPACE, high, low]);
        }
    }
}

// The line of a record: its index, its answer, and the first bytes of what was read.
#[tactic(auto, using(crate::proofs::Lines::line_room_lem, crate::proofs::Lines::length_hex_taken))]
pub fn put_line(
    out: &mut [u8],
    at: usize,
    index: u32,
    answer: u8,
    bytes: &[u8],
    count: usize,
) -> usize
    requires { (count ≤ length bytes.now) × (at + length (line index answer (take count bytes.now)) ≤ length out.old) }
    ensures { Puts at (line index answer (take count bytes.now)) out.old out.new result }
{
    let mut line = Line { out, at };
    line.index(index);
    line.bytes([SPACE]);
    line.answer(answer);
    line.hex(&bytes[..count]);
    line.bytes([NEWLINE]);
    line.at
}

// The only line of a file that is not replayed.
#[tactic(auto, using(crate::proofs::Lines::bad_room_lem), unfolding(model::specs::Text::ascii))]
pub fn put_bad(out: &mut [u8], at: usize, answer: u8) -> usize
    requires { at + length (bad_line answer) ≤ length out.old }
    ensures { Puts at (bad_line answer) out.old out.new result }
{
    let mut line = Line { out, at };
    line.bytes(*b"bad ");
    line.answer(answer);
    line.bytes([NEWLINE]);
    line.at
}
