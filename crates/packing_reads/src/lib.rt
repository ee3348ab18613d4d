// The working state in the front of a lent buffer: whether its bytes are one, and what they are read as.
#![tactic(auto)]

ghost use Rattle.std.specs.Prelude.{◌≡◌, ◌<◌, ◌≤◌, length, take};
ghost use Rattle.bits.specs.Sets.{lane_count};
ghost use Rattle.packing.specs.Packing.{state_length, lane_bytes, unpacked, is_packing};

use model::lane::{LaneRecord, Working};
use packing::{LINE_INDEX, RECORD_LENGTH, STATE_LENGTH};

// A lane's bytes.
fn lane_bytes(state: &[u8; STATE_LENGTH], lane: u8) -> [u8; RECORD_LENGTH]
    requires { lane < lane_count }
    ensures { result ≡ lane_bytes state.now lane }
{
    let at = lane as usize * RECORD_LENGTH;
    let mut bytes = [0u8; RECORD_LENGTH];
    bytes.copy_from_slice(&state[at..at + RECORD_LENGTH]);
    bytes
}

// Whether bytes are a working state's.
fn is_packed(state: &[u8; STATE_LENGTH]) -> bool
    ensures { result ≡ is_packing state.now }
{
    let good = (0..LaneRecord::COUNT).all(|lane| packing_records::is_record(lane_bytes(
        state, lane,
    )));
    good & (state[LINE_INDEX] < 2)
}

// The front of a buffer, as many bytes as a working state's.
fn front(state: &[u8]) -> &[u8; STATE_LENGTH]
    requires { state_length ≤ length state.now }
    ensures { result.now ≡ take state_length state.now }
{
    let (fronts, _) = state.as_chunks();
    &fronts[0]
}

// Whether the front of a buffer is a working state's bytes.
pub fn is_packing(state: &[u8]) -> bool
    ensures { result ≡ is_packing state.now }
{
    if state.len() < STATE_LENGTH {
        return false;
    }
    is_packed(front(state))
}

// The working state that bytes are read as, whether they are one's or not.
fn unpacked(state: &[u8; STATE_LENGTH]) -> Working
    ensures { result ≡ unpacked state.now }
{
    let mut w = Working::idle();
    for (lane, record) in w.lanes.iter_mut().enumerate() {
        *record = packing_records::record_from(lane_bytes(state, lane as u8));
    }
    w.line = state[LINE_INDEX] != 0;
    w
}

// The working state that the front of a buffer is read as.
pub fn unpack(state: &[u8]) -> Working
    requires { state_length ≤ length state.now }
    ensures { result ≡ unpacked state.now }
{
    unpacked(front(state))
}
