// The events that firmware's arguments ask for, where they differ from those of the registers: a write's bytes are lent, and the line is a number.
#![tactic(auto)]

ghost use Rattle.std.specs.Prelude.{◌≡◌, not, eqb, get_or};
ghost use Rattle.model.specs.declared.event.Call.TheVariants.{Line};
ghost use Rattle.door_events.specs.Writes.{held_count, held_bytes, held_write};

use access_limits::WRITE_LIMIT;
use model::event::{Call, Event};

// The count of a write of n bytes: what is above the limit stays above it.
#[tactic(auto, unfolding(crate::specs::Writes::held_count, bits::specs::Choice::pick))]
fn held_count(n: usize) -> u8
    ensures { result ≡ held_count n }
{
    n.min(WRITE_LIMIT + 1) as u8
}

// A lent byte, and 0 behind the last one.
fn byte_at(bytes: &[u8], k: usize) -> u8
    ensures { result ≡ get_or bytes.now k 0 }
{
    if k < bytes.len() {
        return bytes[k];
    }
    0
}

// The lent bytes, as many as a write can carry, and 0 where there are fewer.
fn held_bytes(bytes: &[u8]) -> [u8; WRITE_LIMIT]
    ensures { result ≡ held_bytes bytes.now }
{
    let mut held = [0; WRITE_LIMIT];
    for (k, byte) in held.iter_mut().enumerate() {
        *byte = byte_at(bytes, k);
    }
    held
}

// A host write of the bytes that are lent.
pub fn write(address: u8, bytes: &[u8]) -> Event
    ensures { result ≡ held_write address bytes.now }
{
    Event {
        call: Call::Write {
            address,
            count: held_count(bytes.len()),
        },
        bytes: held_bytes(bytes),
    }
}

// The low-power line is set: off by 0, on by any other number.
pub fn set_line(on: u8) -> Event
    ensures { result.call ≡ Line (not (eqb on 0)) }
{
    Event::from(Call::Line { on: on != 0 })
}
