// The states of a path.
ghost use Rattle.std.specs.Prelude.{◌≡◌};
ghost use Rattle.model.specs.PathStates.{code_of, state_of};

// A path's state; Reserved stands for the codes that name none.
#[derive(Clone, Copy, PartialEq, Eq)]
pub enum PathState {
    Reserved,
    Deactivated,
    Init,
    Deinit,
    Activated,
    TxTurnOn,
    TxTurnOff,
    Initialized,
}

// What decides where a path goes: S, it is to be taken down; R, it is to be taken down or brought up anew; D, its light is to go off, by R or because an
// output is muted.
#[derive(Clone, Copy)]
pub struct Signals {
    pub deinit: bool,
    pub reinit: bool,
    pub deactivate: bool,
}

impl PathState {
    const RESERVED: u8 = 0;

    pub const DEACTIVATED: u8 = 1;

    pub const INIT: u8 = 2;

    const DEINIT: u8 = 3;

    const ACTIVATED: u8 = 4;

    const TX_TURN_ON: u8 = 5;

    const TX_TURN_OFF: u8 = 6;

    pub const INITIALIZED: u8 = 7;
}

// The state that a code names.
impl From<u8> for PathState {
    ghost from_gives = { λ code state. state ≡ state_of code };

    fn from(code: u8) -> Self {
        match code {
            PathState::DEACTIVATED => PathState::Deactivated,
            PathState::INIT => PathState::Init,
            PathState::DEINIT => PathState::Deinit,
            PathState::ACTIVATED => PathState::Activated,
            PathState::TX_TURN_ON => PathState::TxTurnOn,
            PathState::TX_TURN_OFF => PathState::TxTurnOff,
            PathState::INITIALIZED => PathState::Initialized,
            _ => PathState::Reserved,
        }
    }
}

// The code of a state.
impl From<PathState> for u8 {
    ghost from_gives = { λ state code. code ≡ code_of state };

    fn from(state: PathState) -> u8 {
        match state {
            PathState::Reserved => PathState::RESERVED,
            PathState::Deactivated => PathState::DEACTIVATED,
            PathState::Init => PathState::INIT,
            PathState::Deinit => PathState::DEINIT,
            PathState::Activated => PathState::ACTIVATED,
            PathState::TxTurnOn => PathState::TX_TURN_ON,
            PathState::TxTurnOff => PathState::TX_TURN_OFF,
            PathState::Initialized => PathState::INITIALIZED,
        }
    }
}
