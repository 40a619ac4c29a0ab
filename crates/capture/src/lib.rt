// A capture of cycles (document 02, W1): its head, its records, how many of them are played within a limit, and the word for what is left.
#![tactic(auto)]

pub mod extent;
pub mod head;
pub mod records;

pub use extent::{Scanned, scan, settled};
pub use head::body;
pub use records::cycle_of;

// The bytes of the head and of a record.
pub const HEAD_BYTES: usize = 5;

pub const RECORD_BYTES: usize = 4;

// A record. Its kind stays a number, since a record of a bad kind is one too (`cycle_of`); none of those is played (`count`).
#[derive(Clone, Copy)]
pub struct Cycle {
    pub kind: u8,
    pub offset: u16,
    pub byte: u8,
}

// What is printed for what is not played, if there is a word.
#[derive(Clone, Copy, PartialEq, Eq, Debug)]
pub enum Word {
    Budget,
    BadKind,
    BadTail,
    BadHead,
}
