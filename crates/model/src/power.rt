// The module's own states.
ghost use Rattle.std.specs.Prelude.{◌≡◌};
ghost use Rattle.model.specs.Power.{module_code_of, module_state_of};

// The module's state; Other stands for the codes that name none of these.
#[derive(Clone, Copy, PartialEq, Eq)]
pub enum ModuleState {
    Other,
    LowPwr,
    PwrUp,
    Ready,
    PwrDn,
}

impl ModuleState {
    const OTHER: u8 = 0;

    const LOW_PWR: u8 = 1;

    const PWR_UP: u8 = 2;

    pub const READY: u8 = 3;

    const PWR_DN: u8 = 4;
}

// The state that a code names.
impl From<u8> for ModuleState {
    ghost from_gives = { λ code state. state ≡ module_state_of code };

    fn from(code: u8) -> Self {
        match code {
            ModuleState::LOW_PWR => ModuleState::LowPwr,
            ModuleState::PWR_UP => ModuleState::PwrUp,
            ModuleState::READY => ModuleState::Ready,
            ModuleState::PWR_DN => ModuleState::PwrDn,
            _ => ModuleState::Other,
        }
    }
}

// The code of a state.
impl From<ModuleState> for u8 {
    ghost from_gives = { λ state code. code ≡ module_code_of state };

    fn from(state: ModuleState) -> u8 {
        match state {
            ModuleState::Other => ModuleState::OTHER,
            ModuleState::LowPwr => ModuleState::LOW_PWR,
            ModuleState::PwrUp => ModuleState::PWR_UP,
            ModuleState::Ready => ModuleState::READY,
            ModuleState::PwrDn => ModuleState::PWR_DN,
        }
    }
}
