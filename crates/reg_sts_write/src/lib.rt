// Commands (document 01, 'Commands'; TIS 11.3.11, 11.5): what the command bits of STS, a FIFO write and an answer do to the phase.
#![tactic(auto)]

use record::{Causes, Phase};
use reg_fifo::FifoAction;

pub mod completion;
pub mod sts;

// What a command bit, a FIFO write or an answer leaves, which interrupt causes it sets, and what it does to the FIFOs.
// The rules take phase and run number as two, as the record has them: one in `Device`, one in `Control`.
#[derive(Clone, Copy)]
pub struct Commanded {
    pub phase: Phase,
    pub run: u32,
    pub causes: Causes,
    pub fifos: FifoAction,
}
