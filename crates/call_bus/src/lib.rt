// Bus cycles: one read, one write. Each is decided on the record behind a reference, and what it leaves is put into the record that was given, so
// that no PCR is copied on the way of a cycle that takes no hash step.
#![tactic(auto)]

pub mod reading;
pub mod writing;

pub use reading::{ReadCycle, read, read_cycle};
pub use writing::{WriteCycle, write, write_cycle};
