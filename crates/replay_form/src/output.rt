// Standard output, written by as few writes as there can be.
ghost use Rattle.std.specs.Prelude.{◌≡◌, []};

use crate::fault::Fault;
use crate::{MARGIN, ROOM};
use arrayvec::ArrayVec;

const STDOUT_FILENO: i32 = 1;

// The bytes that are not yet written.
#[derive(Drop)]
pub struct Output {
    bytes: ArrayVec<u8, ROOM>,
}

impl Output {
    pub fn new() -> Output
        ensures { result.bytes.items ≡ [] }
    {
        Output {
            bytes: ArrayVec::new(),
        }
    }

    // By the kit's `io`: a write that a signal interrupts is one that failed, as `replay` always had it; std's `write_all` would try it again,
    // as `play` does.
    pub fn flush(&mut self) -> Result<(), Fault> {
        let written = io::write_all(STDOUT_FILENO, self.bytes.as_slice());
        self.bytes.clear();
        if written { Ok(()) } else { Err(Fault::Output) }
    }

    // Room for an outcome afterwards.
    pub fn make_room(&mut self) -> Result<(), Fault> {
        if MARGIN <= self.bytes.remaining_capacity() {
            return Ok(());
        }
        self.flush()
    }

    // Part of an outcome: there is room for it.
    pub fn put(&mut self, part: &[u8]) {
        let _ = self.bytes.try_extend_from_slice(part);
    }

    // The length of a part of a FIFO, which has no more than 9,000 bytes.
    pub fn put_length(&mut self, part: &[u8]) {
        let length = u16::try_from(part.len()).unwrap_or(u16::MAX);
        self.put(&length.to_le_bytes());
    }

    // `flags.map(u8::from)` does not prove here: for any N, `map` asks for one below 2^63.
    pub fn put_flags<const N: usize>(&mut self, flags: [bool; N]) {
        for flag in &flags {
            self.put(&[u8::from(*flag)]);
        }
    }
}
