// The public calls: each answers every input.
#![tactic(auto)]

ghost use Rattle.std.specs.Prelude.{[]};
ghost use Rattle.contracts.specs.Forms.{IsOutcome};
ghost use Rattle.model.specs.State.{state_with};
ghost use Rattle.model.specs.Outcome.{start_outcome, call_outcome};
ghost use Rattle.model.specs.Step.{event};
ghost use Rattle.model.specs.declared.event.Call.TheVariants.{Write, Read, Work, Hardware, Condition, Sample, Lasting, Module, Line};
ghost use Rattle.contracts.specs.Asked.{asked};

use contracts::Returned;
use model::event::{Call, Event};
use model::lane::Working;

// Start with an image: what stays of it, and all lanes idle.
pub fn start(image: &mut [u8]) -> Returned
    ensures { IsOutcome (start_outcome image.old) result image.new [] }
{
    calls::start(image)
}

// Any event, with the buffer that a read fills.
pub fn call(image: &mut [u8], w: Working, event: Event, buffer: &mut [u8]) -> Returned
    ensures { IsOutcome (call_outcome (state_with image.old w) buffer.old event) result image.new buffer.new }
{
    calls::call(image, w, event, buffer)
}

// A host write of count of the bytes that are given.
pub fn write(image: &mut [u8], w: Working, address: u8, count: u8, bytes: [u8; 8]) -> Returned
    ensures { IsOutcome (call_outcome (state_with image.old w) [] (event (Write address count) bytes)) result image.new [] }
{
    calls::without_buffer(
        image,
        w,
        Event {
            call: Call::Write { address, count },
            bytes,
        },
    )
}

// A host read of count bytes into the front of a buffer.
pub fn read(image: &mut [u8], w: Working, address: u8, count: u8, buffer: &mut [u8]) -> Returned
    ensures { IsOutcome (call_outcome (state_with image.old w) buffer.old (asked (Read address count))) result image.new buffer.new }
{
    calls::call(image, w, Event::from(Call::Read { address, count }), buffer)
}

// A work step on a lane.
pub fn work(image: &mut [u8], w: Working, lane: u8) -> Returned
    ensures { IsOutcome (call_outcome (state_with image.old w) [] (asked (Work lane))) result image.new [] }
{
    calls::without_buffer(image, w, Event::from(Call::Work { lane }))
}

// A hardware event on the path of a lane.
pub fn hardware(image: &mut [u8], w: Working, lane: u8) -> Returned
    ensures { IsOutcome (call_outcome (state_with image.old w) [] (asked (Hardware lane))) result image.new [] }
{
    calls::without_buffer(image, w, Event::from(Call::Hardware { lane }))
}

// A condition that comes once, and sets bits of a flag byte.
pub fn condition(image: &mut [u8], w: Working, flag: u8, mask: u8) -> Returned
    ensures { IsOutcome (call_outcome (state_with image.old w) [] (asked (Condition flag mask))) result image.new [] }
{
    calls::without_buffer(image, w, Event::from(Call::Condition { flag, mask }))
}

// A condition that lasts: it begins on the lanes of one mask and ends on those of the other.
pub fn lasting(image: &mut [u8], w: Working, flag: u8, on: u8, off: u8) -> Returned
    ensures { IsOutcome (call_outcome (state_with image.old w) [] (asked (Lasting flag on off))) result image.new [] }
{
    calls::without_buffer(image, w, Event::from(Call::Lasting { flag, on, off }))
}

// A sample of a lane's received power.
pub fn sample(image: &mut [u8], w: Working, lane: u8, power: u16) -> Returned
    ensures { IsOutcome (call_outcome (state_with image.old w) [] (asked (Sample lane power))) result image.new [] }
{
    calls::without_buffer(image, w, Event::from(Call::Sample { lane, power }))
}

// The module event: the module moves one state on.
pub fn move_module(image: &mut [u8], w: Working) -> Returned
    ensures { IsOutcome (call_outcome (state_with image.old w) [] (asked Module)) result image.new [] }
{
    calls::without_buffer(image, w, Event::from(Call::Module))
}

// The low-power line is set, on or off.
pub fn set_line(image: &mut [u8], w: Working, on: bool) -> Returned
    ensures { IsOutcome (call_outcome (state_with image.old w) [] (asked (Line on))) result image.new [] }
{
    calls::without_buffer(image, w, Event::from(Call::Line { on }))
}
