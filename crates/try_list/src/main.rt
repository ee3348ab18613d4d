// Runs a list of four events from start, in a buffer with room and in one without, and the same events by a call each; it writes the answers as digits.
#![tactic(auto)]

ghost use Rattle.contracts.specs.Forms.{IsOutcome};
ghost use Rattle.model.specs.State.{state_with};
ghost use Rattle.model.specs.Outcome.{list_outcome};

use contracts::Returned;
use model::event::{Call, Event};
use model::lane::Working;
use std::io;

// A list of four events by value, for those who have no slice of events to lend.
fn play_four(image: &mut [u8], answers: &mut [u8], w: Working, list: [Event; 4]) -> Returned
    ensures { IsOutcome (list_outcome (state_with image.old w) answers.old list) result image.new answers.new }
{
    list_play::play(image, answers, w, &list)
}

// An answer's number as a character.
fn digit(number: u8) -> u8 {
    48 + number % 16
}

fn event(call: Call, bytes: [u8; 8]) -> Event {
    Event { call, bytes }
}

// A write that is done, a read that is too long, a work step on an idle lane, and a sample of a lane that is not there.
fn night() -> [Event; 4] {
    let none = [0u8; 8];
    let write = event(
        Call::Write {
            address: 127,
            count: 1,
        },
        [17u8; 8],
    );
    let read = event(
        Call::Read {
            address: 0,
            count: 129,
        },
        none,
    );
    let work = event(Call::Work { lane: 3 }, none);
    let sample = event(
        Call::Sample {
            lane: 8,
            power: 700,
        },
        none,
    );
    [write, read, work, sample]
}

// Room for six answers: four are given, and the rest of the buffer is as it was.
fn with_room(rt: &impl Print, image: &mut [u8]) -> io::Result<()> {
    let mut answers = [254u8; 6];
    let started = registers::start(image);
    let left = play_four(image, &mut answers, started.working, night());
    let answer = left.answer;
    let text = [
        digit(answers[0]),
        digit(answers[1]),
        digit(answers[2]),
        digit(answers[3]),
        digit(answers[4]),
        digit(answers[5]),
        digit(u8::from(answer)),
        10,
    ];
    rt.write_all(&text)
}

// Room for three: the list is refused, and no answer is given.
fn without_room(rt: &impl Print, image: &mut [u8]) -> io::Result<()> {
    let mut answers = [254u8; 3];
    let started = registers::start(image);
    let left = play_four(image, &mut answers, started.working, night());
    let answer = left.answer;
    let text = [
        digit(answers[0]),
        digit(answers[1]),
        digit(answers[2]),
        digit(u8::from(answer)),
        10,
    ];
    rt.write_all(&text)
}

// One event by a call of its own: its answer's digit is written, and the records come back.
fn one_call(rt: &impl Print, image: &mut [u8], w: Working, asked: Event) -> io::Result<Working> {
    let mut buffer = [0u8; 4];
    let left = registers::call(image, w, asked, &mut buffer);
    let answer = left.answer;
    let text = [digit(u8::from(answer))];
    rt.write_all(&text)?;
    let next = left.working;
    Ok(next)
}

// The same events by a call each: the same answers.
fn by_calls(rt: &impl Print, image: &mut [u8]) -> io::Result<()> {
    let started = registers::start(image);
    let events = night();
    let first = one_call(rt, image, started.working, events[0])?;
    let second = one_call(rt, image, first, events[1])?;
    let third = one_call(rt, image, second, events[2])?;
    one_call(rt, image, third, events[3])?;
    rt.write_all(b"\n")
}

fn main(rt: HostRuntime) -> io::Result<()> {
    let mut image = [0u8; 896];
    with_room(&rt, &mut image)?;
    without_room(&rt, &mut image)?;
    by_calls(&rt, &mut image)
}
