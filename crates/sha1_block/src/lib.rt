// One block of SHA-1 (FIPS 180-4): words, rounds and the compression of a block.
#![tactic(auto)]

pub mod block;
pub mod rounds;
pub mod word;
