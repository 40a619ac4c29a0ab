// SHA-1 (FIPS 180-4) of a slice at once, and of a message that comes a byte at a time.
#![tactic(auto)]

pub mod oneshot;
mod padding;
mod streaming;

pub use oneshot::{extend, hash};
pub use streaming::join_lent;

// A message as far as it came: the hash value after its whole blocks, the bytes behind them with 00h after them, and how many bytes in all.
// No invariant says that the count may grow: a lent record may hold any stream (`launch::overlong` refuses in time).
#[derive(Clone, Copy, PartialEq, Eq, Debug)]
pub struct Stream {
    pub h: [u32; 5],
    pub tail: [u8; 64],
    pub count: u32,
}
