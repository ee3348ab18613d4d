// The path table: the state that follows a path's state, by its signals.
#![tactic(auto)]

ghost use Rattle.std.specs.Prelude.{◌≡◌};
ghost use Rattle.model.specs.Hardware.{next_state};

use model::path::{PathState, Signals};

// The state that follows, by the path's signals.
pub fn next_state(from: PathState, by: Signals) -> PathState
    ensures { result ≡ next_state from by }
{
    match from {
        PathState::Reserved => PathState::Reserved,
        PathState::Deactivated => if by.deinit {
            PathState::Deactivated
        } else {
            PathState::Init
        },
        PathState::Init => if by.deinit {
            PathState::Deinit
        } else {
            PathState::Initialized
        },
        PathState::Deinit => PathState::Deactivated,
        PathState::Activated => if by.deactivate {
            PathState::TxTurnOff
        } else {
            PathState::Activated
        },
        PathState::TxTurnOn => if by.deactivate {
            PathState::TxTurnOff
        } else {
            PathState::Activated
        },
        PathState::TxTurnOff => PathState::Initialized,
        PathState::Initialized => if by.reinit {
            PathState::Deinit
        } else if by.deactivate {
            PathState::Initialized
        } else {
            PathState::TxTurnOn
        },
    }
}
