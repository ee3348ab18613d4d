// Command messages of page 9Fh.
ghost use Rattle.std.specs.Prelude.{◌≡◌};
ghost use Rattle.model.specs.Commands.{commands, status_among, status_code, length_of};

// The commands that the module knows.
#[derive(Clone, Copy)]
pub enum Command {
    QueryStatus,
    ModuleFeatures,
    FirmwareFeatures,
    FirmwareInfo,
}

// What becomes of a message.
#[derive(Clone, Copy)]
pub enum CommandStatus {
    Success(Command),
    UnknownNumber,
    WrongCode,
}

impl Command {
    const QUERY_STATUS: u16 = 0x0000;

    const MODULE_FEATURES: u16 = 0x0040;

    const FIRMWARE_FEATURES: u16 = 0x0041;

    const FIRMWARE_INFO: u16 = 0x0100;

    // How many bytes its reply has.
    pub fn reply_length(self) -> u8
        ensures { result ≡ length_of self }
    {
        match self {
            Command::QueryStatus => 2,
            Command::ModuleFeatures => 36,
            Command::FirmwareFeatures => 18,
            Command::FirmwareInfo => 110,
        }
    }
}

impl CommandStatus {
    const SUCCESS: u8 = 0x01;

    const UNKNOWN_NUMBER: u8 = 0x41;

    const WRONG_CODE: u8 = 0x45;
}

// What becomes of a message whose code is right, by its number.
impl From<u16> for CommandStatus {
    ghost from_gives = { λ number status. status ≡ status_among commands number };

    fn from(number: u16) -> Self {
        match number {
            Command::QUERY_STATUS => CommandStatus::Success(Command::QueryStatus),
            Command::MODULE_FEATURES => CommandStatus::Success(Command::ModuleFeatures),
            Command::FIRMWARE_FEATURES => CommandStatus::Success(Command::FirmwareFeatures),
            Command::FIRMWARE_INFO => CommandStatus::Success(Command::FirmwareInfo),
            _ => CommandStatus::UnknownNumber,
        }
    }
}

// Its code in lower 37.
impl From<CommandStatus> for u8 {
    ghost from_gives = { λ status code. code ≡ status_code status };

    fn from(status: CommandStatus) -> u8 {
        match status {
            CommandStatus::Success(_) => CommandStatus::SUCCESS,
            CommandStatus::UnknownNumber => CommandStatus::UNKNOWN_NUMBER,
            CommandStatus::WrongCode => CommandStatus::WRONG_CODE,
        }
    }
}
