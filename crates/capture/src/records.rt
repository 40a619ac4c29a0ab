// The records behind the head: one of them, how many are played, and the word for what is left.
ghost use Rattle.std.specs.Prelude.{◌≡◌, ◌≤◌, length};
ghost use Rattle.capture.specs.Capture.{record_bytes, cycle_at, count_of, word_for};

use crate::{Cycle, RECORD_BYTES, Word};

const LAST_KIND: u8 = 3;

// Of a record's bytes.
#[tactic(auto, unfolding(crate::specs::Capture::cycle_at))]
pub fn cycle_of(bytes: &[u8]) -> Cycle
    requires { record_bytes ≤ length bytes.now }
    ensures { result ≡ cycle_at bytes.now 0 }
{
    Cycle {
        kind: bytes[0],
        offset: u16::from_be_bytes([bytes[1], bytes[2]]),
        byte: bytes[3],
    }
}

// The lesser of the limit and the whole records before the first bad kind.
pub fn count(body: &[u8], limit: usize) -> usize
    ensures { result ≡ count_of limit body.now }
{
    let (records, _) = body.as_chunks::<RECORD_BYTES>();
    let most = limit.min(records.len());
    for (n, [kind, ..]) in records[..most].iter().enumerate() {
        if LAST_KIND < *kind {
            return n;
        }
    }
    most
}

// After n records, with so many bytes left.
#[tactic(auto, unfolding(crate::specs::Capture::word_for))]
pub fn word_for(limit: usize, n: usize, left: usize) -> Option<Word>
    ensures { result ≡ word_for limit n left }
{
    if left == 0 {
        None
    } else if n == limit {
        Some(Word::Budget)
    } else if left < RECORD_BYTES {
        Some(Word::BadTail)
    } else {
        Some(Word::BadKind)
    }
}
