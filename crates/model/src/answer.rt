// Answers, by the numbers of the refusal list.
ghost use Rattle.std.specs.Prelude.{◌≡◌};
ghost use Rattle.model.specs.Answers.{number};

// The answer to a call.
#[derive(Clone, Copy, PartialEq, Eq)]
pub enum Answer {
    Done,
    WrongLength,
    FlatMemory,
    Unsound,
    BadAccess,
    ShortBuffer,
    NothingOnLane,
    Busy,
    NoSuchTarget,
    Malformed,
    BackToFront,
}

// The answer's number in the refusal list.
impl From<Answer> for u8 {
    ghost from_gives = { λ answer n. n ≡ number answer };

    fn from(answer: Answer) -> u8 {
        match answer {
            Answer::Done => 0,
            Answer::WrongLength => 1,
            Answer::FlatMemory => 2,
            Answer::Unsound => 3,
            Answer::BadAccess => 4,
            Answer::ShortBuffer => 5,
            Answer::NothingOnLane => 6,
            Answer::Busy => 7,
            Answer::NoSuchTarget => 8,
            Answer::Malformed => 9,
            Answer::BackToFront => 10,
        }
    }
}
