// What a line expects and what came, as text.
use std::fmt;

// A byte that is expected, and the one that came.
#[derive(Clone, Copy, PartialEq, Eq)]
pub struct Pair {
    pub expected: u8,
    pub got: u8,
}

impl Pair {
    pub fn new(expected: u8, got: u8) -> Pair {
        Pair { expected, got }
    }

    pub fn same(self) -> bool {
        self.expected == self.got
    }
}

impl fmt::Display for Pair {
    fn fmt<W: fmt::Write>(&self, f: &mut fmt::Formatter<W>) -> fmt::Result {
        write!(f, "  expected {:02x}  got {:02x}", self.expected, self.got)
    }
}

// The end of a line.
pub fn verdict(same: bool) -> &'static str {
    if same { "  ok" } else { "  DIFFERS" }
}
