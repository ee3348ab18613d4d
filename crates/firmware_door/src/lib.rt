// The calls of firmware: each answers every input, by the answer's number in bits 7-0 and the lanes to be commissioned in bits 15-8.
#![tactic(auto)]

ghost use Rattle.std.specs.Prelude.{not, [], eqb};
ghost use Rattle.model.specs.declared.event.Call.TheVariants.{Read, Work, Hardware, Condition, Sample, Lasting, Module, Line};
ghost use Rattle.contracts.specs.Asked.{asked};
ghost use Rattle.door_events.specs.Writes.{write_of};
ghost use Rattle.door_answers.specs.Door.{door_start, door_outcome, IsLeft};

use model::event::{Call, Event};

// Start with an image: what stays of it, and an idle working state in the front of the state's buffer.
#[unsafe(no_mangle)]
pub extern "C" fn registers_start(image: &mut [u8], state: &mut [u8]) -> u32
    ensures { IsLeft (door_start image.old state.old) result image.new state.new [] }
{
    door_calls::start(image, state)
}

// A host write of the bytes that are lent.
#[unsafe(no_mangle)]
pub extern "C" fn registers_write(
    image: &mut [u8],
    state: &mut [u8],
    address: u8,
    bytes: &[u8],
) -> u32
    ensures { IsLeft (door_outcome image.old state.old [] (write_of address bytes.now)) result image.new state.new [] }
{
    door_calls::without_buffer(image, state, door_events::write(address, bytes))
}

// A host read of count bytes into the front of a buffer.
#[unsafe(no_mangle)]
pub extern "C" fn registers_read(
    image: &mut [u8],
    state: &mut [u8],
    address: u8,
    count: u8,
    buffer: &mut [u8],
) -> u32
    ensures { IsLeft (door_outcome image.old state.old buffer.old (asked (Read address count))) result image.new state.new buffer.new }
{
    door_calls::call(
        image,
        state,
        Event::from(Call::Read { address, count }),
        buffer,
    )
}

// A work step on a lane.
#[unsafe(no_mangle)]
pub extern "C" fn registers_work(image: &mut [u8], state: &mut [u8], lane: u8) -> u32
    ensures { IsLeft (door_outcome image.old state.old [] (asked (Work lane))) result image.new state.new [] }
{
    door_calls::without_buffer(image, state, Event::from(Call::Work { lane }))
}

// A hardware event on the path of a lane.
#[unsafe(no_mangle)]
pub extern "C" fn registers_hardware(image: &mut [u8], state: &mut [u8], lane: u8) -> u32
    ensures { IsLeft (door_outcome image.old state.old [] (asked (Hardware lane))) result image.new state.new [] }
{
    door_calls::without_buffer(image, state, Event::from(Call::Hardware { lane }))
}

// A condition that comes once, and sets bits of a flag byte.
#[unsafe(no_mangle)]
pub extern "C" fn registers_condition(image: &mut [u8], state: &mut [u8], flag: u8, mask: u8) -> u32
    ensures { IsLeft (door_outcome image.old state.old [] (asked (Condition flag mask))) result image.new state.new [] }
{
    door_calls::without_buffer(image, state, Event::from(Call::Condition { flag, mask }))
}

// A condition that lasts: it begins on the lanes of one mask and ends on those of the other.
#[unsafe(no_mangle)]
pub extern "C" fn registers_lasting(
    image: &mut [u8],
    state: &mut [u8],
    flag: u8,
    on: u8,
    off: u8,
) -> u32
    ensures { IsLeft (door_outcome image.old state.old [] (asked (Lasting flag on off))) result image.new state.new [] }
{
    door_calls::without_buffer(image, state, Event::from(Call::Lasting { flag, on, off }))
}

// A sample of a lane's received power.
#[unsafe(no_mangle)]
pub extern "C" fn registers_sample(image: &mut [u8], state: &mut [u8], lane: u8, power: u16) -> u32
    ensures { IsLeft (door_outcome image.old state.old [] (asked (Sample lane power))) result image.new state.new [] }
{
    door_calls::without_buffer(image, state, Event::from(Call::Sample { lane, power }))
}

// The module event: the module moves one state on.
#[unsafe(no_mangle)]
pub extern "C" fn registers_move_module(image: &mut [u8], state: &mut [u8]) -> u32
    ensures { IsLeft (door_outcome image.old state.old [] (asked Module)) result image.new state.new [] }
{
    door_calls::without_buffer(image, state, Event::from(Call::Module))
}

// The low-power line is set: off by 0, on by any other number.
#[unsafe(no_mangle)]
pub extern "C" fn registers_set_line(image: &mut [u8], state: &mut [u8], on: u8) -> u32
    ensures { IsLeft (door_outcome image.old state.old [] (asked (Line (not (eqb on 0))))) result image.new state.new [] }
{
    door_calls::without_buffer(image, state, door_events::set_line(on))
}
