// How many records of a capture are played within a limit, and the word for the rest; and whether the bytes so far decide that.
ghost use Rattle.std.specs.Prelude.{◌≡◌};
ghost use Rattle.capture.specs.Capture.{count_of, word_of, count as count_spec, word as word_spec, ends as ends_spec, settled as settled_spec};

use crate::head::HEAD;
use crate::records::{count, word_for};
use crate::{HEAD_BYTES, RECORD_BYTES, Word};

#[derive(Clone, Copy)]
pub struct Scanned {
    pub cycles: usize,
    pub word: Option<Word>,
}

// Behind a good head.
fn scan_body(body: &[u8], limit: usize) -> Scanned
    ensures { (result.cycles ≡ count_of limit body.now) × (result.word ≡ word_of limit body.now) }
{
    let cycles = count(body, limit);
    Scanned {
        cycles,
        word: word_for(limit, cycles, body.len() - RECORD_BYTES * cycles),
    }
}

pub fn scan(capture: &[u8], limit: usize) -> Scanned
    ensures { (result.cycles ≡ count_spec limit capture.now) × (result.word ≡ word_spec limit capture.now) }
{
    match capture.strip_prefix(&HEAD) {
        Some(body) => scan_body(body, limit),
        None => Scanned {
            cycles: 0,
            word: Some(Word::BadHead),
        },
    }
}

fn ends(word: Option<Word>) -> bool
    ensures { result ≡ ends_spec word }
{
    matches!(word, Some(Word::Budget | Word::BadKind | Word::BadHead))
}

// Do the bytes so far decide what is played and the word, whatever comes behind them.
pub fn settled(capture: &[u8], limit: usize) -> bool
    ensures { result ≡ settled_spec limit capture.now }
{
    if capture.len() < HEAD_BYTES {
        return !HEAD.starts_with(capture);
    }
    ends(scan(capture, limit).word)
}
