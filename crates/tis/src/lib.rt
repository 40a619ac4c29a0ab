// The public calls of the register front. Each tests what document 01 has it test and answers as the paper names; none has a `requires`.
// The two FIFOs stay two slices, lent anew at each call: a struct of both would have to say in each contract that its loans stay the same, as
// `text::Page` does, which two parameters say by being what they are. The record stands beside them, since it goes by value (B-10).
#![tactic(auto)]

pub use call_bus::{read, write};
pub use call_outcome::{Outcome, ReadOutcome};
pub use call_power::{power_on, reset};
pub use call_query::{
    PcrOutcome, WindowOutcome, interrupt_line, may_extend, may_reset, pcr_value, window,
};
pub use call_respond::respond;
