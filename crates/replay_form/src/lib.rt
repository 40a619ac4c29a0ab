// The form in which calls come and outcomes go (docs/REPLAY.md): calls and their fields, the buffers, the faults of a stream.
#![tactic(auto)]

pub mod call;
pub mod fault;
pub mod fields;
pub mod input;
pub mod opcode;
pub mod output;

// The greatest length of an answer and of a FIFO: above the greatest C, so that lengths beyond it are played too.
// It belongs to docs/REPLAY.md's form: the bench sheet's 9,000 is that sheet's own, and neither follows the other.
pub const LONGEST: usize = 9000;

// The bytes of a record's image; that and all sizes here are docs/REPLAY.md's, and must not follow a record that changes.
pub const IMAGE: usize = 603;

// Its flags come first, one byte each.
pub const FLAGS: usize = 20;

// Where the phase stands in it.
pub const PHASE: usize = 21;

// The bytes of the input's buffer, and of the output's.
pub const ROOM: usize = 65536;

// More than any call and any outcome takes.
const MARGIN: usize = 19000;
