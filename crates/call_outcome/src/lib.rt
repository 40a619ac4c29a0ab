// What a call of the register front leaves: what it was refused for, if it was, the record, and for a read the byte.
#![tactic(auto)]

use record::Device;
use refusal::Refusal;

// What a call was refused for, none where it was accepted, and the record afterwards: a refused call has one too (`refusals_change_nothing`).
#[derive(Clone, Copy, PartialEq, Eq, Debug)]
pub struct Outcome {
    pub refusal: Option<Refusal>,
    pub device: Device,
}

// The same, with the byte that a read gives, beside the refusal since document 01 names a refused one's, FFh (`refusals_change_nothing.value`). No
// `Outcome` in it: users and the claims' `Calls` name `refusal`, `byte` and `device`.
#[derive(Clone, Copy, PartialEq, Eq, Debug)]
pub struct ReadOutcome {
    pub refusal: Option<Refusal>,
    pub byte: u8,
    pub device: Device,
}
