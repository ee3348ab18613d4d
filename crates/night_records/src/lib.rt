// Records of a night file: whether twelve bytes are one, in an edition.
#![tactic(auto)]

ghost use Rattle.std.specs.Prelude.{◌≡◌, ◌*◌, ◌^◌, ◌≤◌, ◌<◌, ltb, length};
ghost use Rattle.bits.specs.Choice.{pick};
ghost use Rattle.model.specs.File.{later_editions, edition_among, record_length, written_bytes, is_record};
ghost use Rattle.night_records.specs.Clear.{tail_of, is_clear_from, front_of, condition_limit, power_limit, front_limit};
ghost use Rattle.night_records.specs.Edition.{edition_number, IsEditionOf};
ghost use Rattle.night_records.specs.Kind.{Names};

pub const RECORD_LENGTH: usize = 12;

pub type Record = [u8; RECORD_LENGTH];

// The kinds of records.
#[derive(Clone, Copy)]
pub enum Kind {
    Write,
    Read,
    Work,
    Hardware,
    Condition,
    Sample,
    Module,
    Line,
}

// A number that is no kind's.
#[derive(Clone, Copy)]
pub struct UnknownKind;

impl TryFrom<u8> for Kind {
    type Error = UnknownKind;

    ghost try_from_gives = { Names };

    fn try_from(number: u8) -> Result<Kind, UnknownKind> {
        match number {
            1 => Ok(Kind::Write),
            2 => Ok(Kind::Read),
            3 => Ok(Kind::Work),
            4 => Ok(Kind::Hardware),
            5 => Ok(Kind::Condition),
            6 => Ok(Kind::Sample),
            7 => Ok(Kind::Module),
            8 => Ok(Kind::Line),
            _ => Err(UnknownKind),
        }
    }
}

// The editions of the file.
#[derive(Clone, Copy)]
pub enum Edition {
    First,
    Second,
    Third,
    Fourth,
}

// The edition of a number; the first where no later one has it.
impl From<u8> for Edition {
    ghost from_gives = { IsEditionOf };

    #[tactic(auto, unfolding(model::specs::File::edition_among, bits::specs::Choice::pick))]
    fn from(number: u8) -> Edition {
        match number {
            2 => Edition::Second,
            3 => Edition::Third,
            4 => Edition::Fourth,
            _ => Edition::First,
        }
    }
}

// The data of a write.
const DATA_LIMIT: u8 = 8;

// How many bytes of a record are data, of the count that a write names.
fn data_bytes(count: u8) -> usize
    ensures { (result ≡ pick (ltb 8 count) 8 count) × (result ≤ 8) }
{
    count.min(DATA_LIMIT) as usize
}

// The last eight bytes of a record as one number: the compiler makes one load of it.
#[tactic(auto, unfolding(crate::specs::Clear::low_first))]
fn tail_of(bytes: &[u8]) -> u64
    requires { record_length ≤ length bytes.now }
    ensures { result ≡ tail_of bytes.now }
{
    u64::from_le_bytes([
        bytes[4], bytes[5], bytes[6], bytes[7], bytes[8], bytes[9], bytes[10], bytes[11],
    ])
}

// What a number of so many bytes stays below.
fn byte_limit(n: usize) -> u64
    requires { n < 8 }
    ensures { result ≡ 2 ^ (8 * n) }
{
    1u64 << ((8 * n) as u64)
}

// Whether a record's bytes from the fourth on are zeros.
fn is_clear_from_3(bytes: &[u8], tail: u64) -> bool
    requires { (record_length ≤ length bytes.now) × (tail ≡ tail_of bytes.now) }
    ensures { result ≡ is_clear_from 3 bytes.now }
{
    (bytes[3] == 0) & (tail == 0)
}

// Whether a write's bytes behind its data are zeros.
fn is_write(bytes: &[u8], tail: u64) -> bool
    requires { (record_length ≤ length bytes.now) × (tail ≡ tail_of bytes.now) }
    ensures { result ≡ is_clear_from (written_bytes bytes.now) bytes.now }
{
    let n = data_bytes(bytes[2]);
    if n == 0 {
        return is_clear_from_3(bytes, tail);
    }
    tail < byte_limit(n - 1)
}

// The three bytes behind a record's kind as one number, the first of them lowest.
#[tactic(auto, unfolding(crate::specs::Clear::low_first))]
fn front_of(bytes: &[u8]) -> u32
    requires { record_length ≤ length bytes.now }
    ensures { result ≡ front_of bytes.now }
{
    u32::from_le_bytes([bytes[1], bytes[2], bytes[3], 0])
}

// What that number of a condition stays below, in an edition: from the third on it has an off mask.
#[tactic(auto, unfolding(crate::specs::Clear::condition_limit, bits::specs::Choice::pick, bits::specs::Choice::either))]
fn condition_limit(edition: Edition) -> u32
    ensures { result ≡ condition_limit (edition_number edition) }
{
    match edition {
        Edition::First | Edition::Second => 65536,
        Edition::Third | Edition::Fourth => 16777216,
    }
}

// .. of an event of the module's power, which is listed from the fourth edition on.
#[tactic(auto, unfolding(crate::specs::Clear::power_limit, bits::specs::Choice::pick))]
fn power_limit(edition: Edition, limit: u32) -> u32
    ensures { result ≡ power_limit (edition_number edition) limit }
{
    match edition {
        Edition::First | Edition::Second | Edition::Third => 0,
        Edition::Fourth => limit,
    }
}

// .. of any kind: nothing stays below the limit of a write, which goes by its tail.
fn front_limit(kind: Kind, edition: Edition) -> u32
    ensures { result ≡ front_limit (edition_number edition) kind }
{
    match kind {
        Kind::Write => 0,
        Kind::Read => 65536,
        Kind::Work => 256,
        Kind::Hardware => 256,
        Kind::Condition => condition_limit(edition),
        Kind::Sample => 16777216,
        Kind::Module => power_limit(edition, 1),
        Kind::Line => power_limit(edition, 2),
    }
}

// Whether a record is of a kind that an edition lists, with zeros in the bytes that it does not use, and its line is to be on or off.
pub fn is_record(bytes: &[u8], edition: u8) -> bool
    requires { record_length ≤ length bytes.now }
    ensures { result ≡ is_record (edition_among later_editions edition) bytes.now }
{
    let edition = Edition::from(edition);
    let Ok(kind) = Kind::try_from(bytes[0]) else {
        return false;
    };
    let tail = tail_of(bytes);
    match kind {
        Kind::Write => is_write(bytes, tail),
        _ => (tail == 0) & (front_of(bytes) < front_limit(kind, edition)),
    }
}
