// The working state as bytes: the lengths. The definitions are in specs/, and that packing and reading back undo each other in proofs/.
#![tactic(auto)]

// The bytes of a lane's record.
pub const RECORD_LENGTH: usize = 16;

// Where the low-power line's byte lies, behind the lanes'.
pub const LINE_INDEX: usize = 128;

// The bytes of a working state.
pub const STATE_LENGTH: usize = 129;
