// The event of each record of a night file, by the edition of its file.
#![tactic(auto)]

ghost use Rattle.std.specs.Prelude.{◌≡◌, ◌≤◌, length};
ghost use Rattle.model.specs.File.{later_editions, edition_among, record_length, kind_of, condition_kind, module_kind, line_kind, sample_call, call_of, event_of};
ghost use Rattle.night_records.specs.Edition.{row_of};
ghost use Rattle.night_events.specs.Power.{power_call};

use model::event::{Call, Event};
use night_records::{Edition, Kind};

// The call of a condition's record, in an edition: it comes once in the first two, and lasts from the third on.
#[tactic(auto, unfolding(model::specs::File::edition_among, model::specs::File::call_of, bits::specs::Choice::pick))]
fn condition_call(bytes: &[u8], edition: Edition) -> Call
    requires { (record_length ≤ length bytes.now) × (kind_of bytes.now ≡ condition_kind) }
    ensures { result ≡ call_of (row_of edition).forms bytes.now }
{
    match edition {
        Edition::First | Edition::Second => Call::Condition {
            flag: bytes[1],
            mask: bytes[2],
        },
        Edition::Third | Edition::Fourth => Call::Lasting {
            flag: bytes[1],
            on: bytes[2],
            off: bytes[3],
        },
    }
}

// The call of a sample's record, and of one whose kind is not listed, which is never replayed.
fn sample_call(bytes: &[u8]) -> Call
    requires { record_length ≤ length bytes.now }
    ensures { result ≡ sample_call bytes.now }
{
    Call::Sample {
        lane: bytes[1],
        power: u16::from_be_bytes([bytes[2], bytes[3]]),
    }
}

// The call of a record of the module's power, in an edition: it is listed from the fourth on.
fn power_call(bytes: &[u8], edition: Edition, listed: Call) -> Call
    requires { record_length ≤ length bytes.now }
    ensures { result ≡ power_call edition listed bytes.now }
{
    match edition {
        Edition::First | Edition::Second | Edition::Third => sample_call(bytes),
        Edition::Fourth => listed,
    }
}

// The call of a record, in an edition.
fn call_of(bytes: &[u8], edition: Edition) -> Call
    requires { record_length ≤ length bytes.now }
    ensures { result ≡ call_of (row_of edition).forms bytes.now }
{
    let Ok(kind) = Kind::try_from(bytes[0]) else {
        return sample_call(bytes);
    };
    let first = bytes[1];
    match kind {
        Kind::Write => Call::Write {
            address: first,
            count: bytes[2],
        },
        Kind::Read => Call::Read {
            address: first,
            count: bytes[2],
        },
        Kind::Work => Call::Work { lane: first },
        Kind::Hardware => Call::Hardware { lane: first },
        Kind::Condition => condition_call(bytes, edition),
        Kind::Sample => sample_call(bytes),
        Kind::Module => power_call(bytes, edition, Call::Module),
        Kind::Line => power_call(bytes, edition, Call::Line { on: first == 1 }),
    }
}

// The event of a record, in an edition.
#[tactic(auto, unfolding(model::specs::File::event_of, bits::specs::Loop::tab))]
pub fn event_of(bytes: &[u8], edition: u8) -> Event
    requires { record_length ≤ length bytes.now }
    ensures { result ≡ event_of (edition_among later_editions edition) bytes.now }
{
    let call = call_of(bytes, Edition::from(edition));
    let data = [
        bytes[3], bytes[4], bytes[5], bytes[6], bytes[7], bytes[8], bytes[9], bytes[10],
    ];
    Event { call, bytes: data }
}
