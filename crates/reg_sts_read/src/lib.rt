// STS as it reads (document 01, 'Commands'; TIS 11.3.11): the declared size, Expect, burstCount and the status bits.
#![tactic(auto)]

pub mod size;
pub mod sts;
