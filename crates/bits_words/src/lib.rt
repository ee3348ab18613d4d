// Numbers of two and four bytes, the high byte first.
#![tactic(auto)]

ghost use Rattle.std.specs.Prelude.{◌≡◌, ◌+◌, ◌≤◌, length};
ghost use Rattle.bits.specs.Word.{word, put_word};

// The number in two bytes, the high one first.
#[tactic(auto, unfolding(bits::specs::Word::word))]
pub fn word2(bytes: &[u8], at: usize) -> u16
    requires { at + 2 ≤ length bytes.now }
    ensures { result ≡ word 2 bytes.now at }
{
    u16::from_be_bytes([bytes[at], bytes[at + 1]])
}

// The number in four bytes, the high one first.
#[tactic(auto, unfolding(bits::specs::Word::word))]
pub fn word4(bytes: &[u8], at: usize) -> u32
    requires { at + 4 ≤ length bytes.now }
    ensures { result ≡ word 4 bytes.now at }
{
    u32::from_be_bytes([bytes[at], bytes[at + 1], bytes[at + 2], bytes[at + 3]])
}

// v put into two bytes.
#[tactic(auto, unfolding(bits::specs::Word::put_word))]
pub fn put_word2(bytes: &mut [u8], at: usize, v: u16)
    requires { at + 2 ≤ length bytes.old }
    ensures { bytes.new ≡ put_word 2 bytes.old at v }
{
    bytes[at..at + 2].copy_from_slice(&v.to_be_bytes());
}
