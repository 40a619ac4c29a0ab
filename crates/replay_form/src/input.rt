// Standard input, read by as few reads as there can be.
ghost use Rattle.std.specs.Prelude.{◌≡◌, ◌+◌, ◌≤◌, length, IfOk, IfSome};

use crate::call::{Call, next_call};
use crate::fault::Fault;
use crate::{MARGIN, ROOM};
use std::io::{Read, Stdin};

const STDIN_FILENO: i32 = 0;

// What may follow the bytes that were read.
#[derive(Clone, Copy, PartialEq, Eq)]
enum Source {
    Open,
    Ended,
    Failed,
}

// The bytes from `at` to `end` are read and not yet played; in fixed memory, since the library's `BufReader` wants an allocator.
#[derive(Drop)]
pub struct Input {
    stdin: Stdin,
    source: Source,
    bytes: [u8; ROOM],
    pub at: usize,
    pub end: usize,
    ghost ordered: { at ≤ end },
    ghost within: { end ≤ 65536 },
}

impl Input {
    pub fn new(stdin: Stdin) -> Input
        ensures { (result.at ≡ 0) × (result.end ≡ 0) }
    {
        Input {
            stdin,
            source: Source::Open,
            bytes: [0; ROOM],
            at: 0,
            end: 0,
        }
    }

    // Until the buffer is full, or the input ends or fails: by the kit's `read_full`, since std's `read_exact` does not say how much came; it does not
    // tell the last two apart, so one read more does.
    fn fill(&mut self) {
        self.end += io::read_full(STDIN_FILENO, &mut self.bytes[self.end..]);
        let last = match self.stdin.read(&mut self.bytes[self.end..]) {
            Ok(bytes) => {
                self.end += bytes;
                Source::Ended
            }
            Err(_) => Source::Failed,
        };
        if self.end < ROOM {
            self.source = last;
        }
    }

    // A whole call's bytes lie ahead afterwards, or all that the input has.
    pub fn refill(&mut self) {
        let ahead = self.end - self.at;
        if self.source != Source::Open || MARGIN <= ahead {
            return;
        }
        self.bytes.copy_within(self.at..self.end, 0);
        self.at = 0;
        self.end = ahead;
        self.fill();
    }

    // The next call, if there is one. An input that failed ends like one that is cut short or just ends; a fault of what was read before is
    // named first.
    pub fn next_call(&self) -> Result<Option<Call<'_>>, Fault>
        ensures { IfOk result (λ next. IfSome next (λ call. self.now.at + 1 + length call.arguments.now ≤ self.now.end)) }
    {
        match next_call(&self.bytes[self.at..self.end]) {
            Ok(None) | Err(Fault::Cut) if self.source == Source::Failed => Err(Fault::Input),
            next => next,
        }
    }

    // A call with so many bytes of arguments is played.
    pub fn advance(&mut self, arguments: usize)
        requires { self.old.at + 1 + arguments ≤ self.old.end }
        ensures { (self.new.at ≡ self.old.at + 1 + arguments) × (self.new.end ≡ self.old.end) }
    {
        self.at += 1 + arguments;
    }
}
