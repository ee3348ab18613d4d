// Events: what can happen to the module.
ghost use Rattle.std.specs.Prelude.{◌≡◌};

// What is asked, with its arguments. Power is in tenths of a microwatt. A condition comes once; a lasting one begins on some lanes and ends on others. The module
// moves one state on; the low-power line is set.
#[derive(Clone, Copy)]
pub enum Call {
    Write { address: u8, count: u8 },
    Read { address: u8, count: u8 },
    Work { lane: u8 },
    Hardware { lane: u8 },
    Condition { flag: u8, mask: u8 },
    Sample { lane: u8, power: u16 },
    Lasting { flag: u8, on: u8, off: u8 },
    Module,
    Line { on: bool },
}

// An event: the call, and beside it the bytes that a write carries.
#[derive(Clone, Copy)]
pub struct Event {
    pub call: Call,
    pub bytes: [u8; 8],
}

// An event that needs no bytes.
impl From<Call> for Event {
    ghost from_gives = { λ call event. event.call ≡ call };

    fn from(call: Call) -> Self {
        Event {
            call,
            bytes: [0; 8],
        }
    }
}
