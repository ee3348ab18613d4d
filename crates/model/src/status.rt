// ConfigStatus: what became of a lane's last Apply.
ghost use Rattle.std.specs.Prelude.{◌≡◌};
ghost use Rattle.model.specs.Statuses.{success, in_progress};

// A lane's status, by its code.
#[derive(Clone, Copy)]
pub struct Status {
    pub code: u8,
}

impl Status {
    const SUCCESS: u8 = 1;

    pub const REJECTED: u8 = 2;

    pub const INVALID_APPLICATION: u8 = 3;

    pub const INVALID_PATH: u8 = 4;

    pub const INVALID_SETTINGS: u8 = 5;

    pub const LANES_IN_USE: u8 = 6;

    pub const PARTIAL_PATH: u8 = 7;

    pub const IN_PROGRESS: u8 = 12;

    // The status of a lane whose group has passed and closed.
    pub fn success() -> Self
        ensures { result.code ≡ success }
    {
        Status {
            code: Status::SUCCESS,
        }
    }

    // The status of a lane whose group is marked.
    pub fn in_progress() -> Self
        ensures { result.code ≡ in_progress }
    {
        Status {
            code: Status::IN_PROGRESS,
        }
    }

    // The status of a lane whose group was rejected.
    pub fn rejected(code: u8) -> Self
        ensures { result.code ≡ code }
    {
        Status { code }
    }
}
