// What is loaded and dumped (docs/REPLAY.md, 'The form'): a record as 603 bytes, the flags first, then the numbers and the bytes; and both FIFOs.
#![tactic(auto)]

mod decode;
mod encode;
mod state;

pub use state::State;
