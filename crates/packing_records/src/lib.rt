// A lane's record from sixteen bytes, and whether they are one's.
#![tactic(auto)]

ghost use Rattle.std.specs.Prelude.{◌≡◌};
ghost use Rattle.packing.specs.Packing.{trigger_of, set_of, verdict_of, progress_from, record_from, is_record};

use model::lane::{LaneRecord, Progress, Settings, StagedSet, Trigger, Verdict};
use packing::RECORD_LENGTH;

#[tactic(auto, unfolding(packing::specs::Packing::trigger_of, bits::specs::Choice::pick))]
fn trigger_of(byte: u8) -> Trigger
    ensures { result ≡ trigger_of byte }
{
    match byte {
        0 => Trigger::DpInit,
        _ => Trigger::Immediate,
    }
}

#[tactic(auto, unfolding(packing::specs::Packing::set_of, bits::specs::Choice::pick))]
fn set_of(byte: u8) -> StagedSet
    ensures { result ≡ set_of byte }
{
    match byte {
        0 => StagedSet::Set0,
        _ => StagedSet::Set1,
    }
}

#[tactic(auto, unfolding(packing::specs::Packing::verdict_of, bits::specs::Choice::pick))]
fn verdict_of(byte: u8, number: u8) -> Verdict
    ensures { result ≡ verdict_of byte number }
{
    match byte {
        0 => Verdict::Pass(number),
        _ => Verdict::Reject(number),
    }
}

#[tactic(auto, unfolding(packing::specs::Packing::progress_from))]
fn progress_from(bytes: [u8; RECORD_LENGTH]) -> Progress
    ensures { result ≡ progress_from bytes }
{
    Progress {
        group: bytes[1],
        held: Settings {
            config: bytes[2],
            adaptive: bytes[3],
            equalizer: bytes[4],
            cdr_tx: bytes[5],
            cdr_rx: bytes[6],
            pre: bytes[7],
            post: bytes[8],
            amplitude: bytes[9],
        },
        trigger: trigger_of(bytes[10]),
        set: set_of(bytes[11]),
        verdict: verdict_of(bytes[12], bytes[13]),
    }
}

// The record that sixteen bytes are read as, whether they are a record's or not.
#[tactic(auto, unfolding(packing::specs::Packing::record_from, bits::specs::Choice::pick))]
pub fn record_from(bytes: [u8; RECORD_LENGTH]) -> LaneRecord
    ensures { result ≡ record_from bytes }
{
    LaneRecord {
        stage: match bytes[0] {
            0 => None,
            _ => Some(progress_from(bytes)),
        },
        on: u16::from_be_bytes([bytes[14], bytes[15]]),
    }
}

// Whether sixteen bytes are those of the record that they are read as.
pub fn is_record(bytes: [u8; RECORD_LENGTH]) -> bool
    ensures { result ≡ is_record bytes }
{
    let own = packing_bytes::record_bytes(record_from(bytes));
    own == bytes
}
