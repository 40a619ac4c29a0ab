// The 24 PCRs: who may reset and extend each (`table`), and their values (`bank`).
#![tactic(auto)]

use refusal::Refusal;

pub mod bank;
pub mod table;

pub const PCRS: usize = 24;

// A type of its own, so that no locality is taken for a PCR.
#[derive(Clone, Copy, PartialEq, Eq, Debug)]
pub struct PcrIndex(pub u8);

#[derive(Clone, Copy, PartialEq, Eq, Debug)]
pub struct Pcr {
    pub bytes: [u8; 20],
}

// The answer to a permission question: `allowed` beside the refusal, since document 01 names what a refused one gives, no
// (`refusals_change_nothing.value`). No one type for this, `PcrOutcome` and `WindowOutcome`: users and the claims (`Calls`, `Steps`) name `allowed`,
// `value` and `bytes`.
#[derive(Clone, Copy, PartialEq, Eq, Debug)]
pub struct Permission {
    pub refusal: Option<Refusal>,
    pub allowed: bool,
}
