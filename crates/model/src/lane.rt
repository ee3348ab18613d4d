// Lanes: the record that each keeps of its Apply, and the working state that holds the eight of them and the low-power line.
ghost use Rattle.std.specs.Prelude.{◌≡◌};
ghost use Rattle.model.specs.Map.{staged_base};
ghost use Rattle.model.specs.Records.{idle_record, idle_working};

// The settings of one lane, a number for each of its fields.
#[derive(Clone, Copy, PartialEq, Eq)]
pub struct Settings {
    pub config: u8,
    pub adaptive: u8,
    pub equalizer: u8,
    pub cdr_tx: u8,
    pub cdr_rx: u8,
    pub pre: u8,
    pub post: u8,
    pub amplitude: u8,
}

// Which trigger began an Apply.
#[derive(Clone, Copy, PartialEq, Eq)]
pub enum Trigger {
    DpInit,
    Immediate,
}

// Which staged set an Apply is of.
#[derive(Clone, Copy, PartialEq, Eq)]
pub enum StagedSet {
    Set0,
    Set1,
}

impl StagedSet {
    const SET_0: usize = 529;

    const SET_1: usize = 564;

    // Where the set begins in the image.
    pub fn base(self) -> usize
        ensures { result ≡ staged_base self }
    {
        match self {
            StagedSet::Set0 => StagedSet::SET_0,
            StagedSet::Set1 => StagedSet::SET_1,
        }
    }
}

// What a write to a trigger's place asks for: which trigger it is, and of which staged set.
#[derive(Clone, Copy)]
pub struct Apply {
    pub trigger: Trigger,
    pub set: StagedSet,
}

// What was decided at the trigger: a pass with the lane to be copied next (the lane count where none is left), or a rejection with its code.
#[derive(Clone, Copy, PartialEq, Eq)]
pub enum Verdict {
    Pass(u8),
    Reject(u8),
}

// An Apply under way on a lane: the lanes of its group, the settings held for this lane, the trigger, the staged set and the verdict.
#[derive(Clone, Copy)]
pub struct Progress {
    pub group: u8,
    pub held: Settings,
    pub trigger: Trigger,
    pub set: StagedSet,
    pub verdict: Verdict,
}

// What is kept of one lane beside its registers: its Apply under way, none where the lane is idle, and which of its flags that can last are on, a bit for each, the first lowest.
#[derive(Clone, Copy)]
pub struct LaneRecord {
    pub stage: Option<Progress>,
    pub on: u16,
}

impl LaneRecord {
    pub const COUNT: u8 = 8;

    fn idle() -> Self
        ensures { result ≡ idle_record }
    {
        LaneRecord { stage: None, on: 0 }
    }
}

// What the module keeps beside its image: the lanes' records, and whether the low-power line is on.
#[derive(Clone, Copy)]
pub struct Working {
    pub lanes: [LaneRecord; 8],
    pub line: bool,
}

impl Working {
    // All lanes idle with nothing on, and the line off.
    pub fn idle() -> Self
        ensures { result ≡ idle_working }
    {
        Working {
            lanes: [LaneRecord::idle(); 8],
            line: false,
        }
    }
}
