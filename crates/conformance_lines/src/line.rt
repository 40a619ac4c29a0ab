// A line of the sheet: 22 characters that name the entry, a letter that says what is done, an offset, a byte, and up to 40 characters more.
ghost use Rattle.std.specs.Prelude.{◌<◌};

use std::iter::{Cycle, Skip, Take};
use std::ops::Range;

// The characters of a line: a shorter one is filled with blanks, a longer one cut.
const WIDTH: usize = 72;

// How many bytes the sheet's free ones go over, from 0 on.
pub const FREE: u8 = 251;

// What a line asks for, by its letter; a heading's, and an empty line's, is a blank.
#[derive(Clone, Copy, PartialEq, Eq)]
pub enum Kind {
    PowerOn,
    Reset,
    Write,
    Text,
    Fill,
    Read,
    Drain,
    Respond,
    RespondFree,
    Window,
    Run,
    InterruptLine,
    Pcr,
    Permission,
    // The blank and every other letter are kinds too: one does nothing, the other is shown as not understood.
    Heading,
    Unknown,
}

impl From<u8> for Kind {
    fn from(letter: u8) -> Kind {
        // Each letter is decoded here, once.
        match letter {
            b'p' => Kind::PowerOn,
            b'x' => Kind::Reset,
            b'w' => Kind::Write,
            b'm' => Kind::Text,
            b'f' => Kind::Fill,
            b'r' => Kind::Read,
            b'd' => Kind::Drain,
            b'e' => Kind::Respond,
            b'g' => Kind::RespondFree,
            b's' => Kind::Window,
            b'n' => Kind::Run,
            b'i' => Kind::InterruptLine,
            b'v' => Kind::Pcr,
            b'q' => Kind::Permission,
            b' ' => Kind::Heading,
            _ => Kind::Unknown,
        }
    }
}

// The name and the rest of a line may be any bytes: the sheet is standard input. The places here and in the methods are the sheet's columns.
#[derive(Clone, Copy)]
pub struct Step {
    pub label: [u8; 22],
    pub kind: Kind,
    pub high: u8,
    pub low: u8,
    pub byte: u8,
    pub rest: [u8; 40],
}

// A small hexadecimal digit's value; any other character has one too, unlike for `char::to_digit`.
fn digit(c: u8) -> u8
    ensures { result < 16 }
{
    if c < b'a' { c % 16 } else { (c % 16 + 9) % 16 }
}

fn byte(high: u8, low: u8) -> u8 {
    digit(high) * 16 + digit(low)
}

impl Step {
    pub fn parse(text: &[u8]) -> Step {
        let mut line = [b' '; WIDTH];
        // What is longer is cut. No copy_from_slice of a part: the line's length is lost to the proof of what is taken from it below.
        for (to, from) in line.iter_mut().zip(text) {
            *to = *from;
        }
        Step {
            label: *line.first_chunk().unwrap(),
            kind: Kind::from(line[22]),
            high: byte(line[24], line[25]),
            low: byte(line[26], line[27]),
            byte: byte(line[29], line[30]),
            rest: *line.last_chunk().unwrap(),
        }
    }

    pub fn offset(&self) -> u16 {
        u16::from_be_bytes([self.high, self.low])
    }

    // Six hexadecimal digits behind the byte: how many times.
    pub fn times(&self) -> usize
        ensures { result < 16777216 }
    {
        let [a, b, c, d, e, f, ..] = self.rest;
        // `as`, since std has no `From` of a u32 for usize; the check sees that no bit is lost.
        u32::from_be_bytes([0, byte(a, b), byte(c, d), byte(e, f)]) as usize
    }

    // The refusal number expected, behind the byte.
    pub fn refusal(&self) -> u8 {
        let [high, low, ..] = self.rest;
        byte(high, low)
    }

    // The bits of several calls' refusal numbers that are expected, behind how many times.
    pub fn refusals(&self) -> u8 {
        byte(self.rest[7], self.rest[8])
    }

    // Twenty bytes, two hexadecimal digits each.
    pub fn answer(&self) -> [u8; 20] {
        let mut answer = [0u8; 20];
        let (digits, _) = self.rest.as_chunks::<2>();
        for (to, [high, low]) in answer.iter_mut().zip(digits) {
            *to = byte(*high, *low);
        }
        answer
    }

    // Bytes that the sheet leaves free: the line's byte and those after it, modulo 251, n of them.
    pub fn free_bytes(&self, n: usize) -> Take<Skip<Cycle<Range<u8>>>> {
        (0..FREE).cycle().skip(usize::from(self.byte)).take(n)
    }
}
