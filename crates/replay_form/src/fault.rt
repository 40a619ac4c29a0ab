// Why a stream is no list of calls, or ends before its end: what the one line on standard error says of it.
use std::error::Error;
use std::fmt;

#[derive(Clone, Copy, Debug, PartialEq, Eq)]
pub enum Fault {
    Cut,
    Unknown,
    TooLong,
    Flag,
    Phase,
    Input,
    Output,
}

impl fmt::Display for Fault {
    fn fmt<W: fmt::Write>(&self, f: &mut fmt::Formatter<W>) -> fmt::Result {
        f.write_str(match self {
            Fault::Cut => "cut short",
            Fault::Unknown => "unknown opcode",
            Fault::TooLong => "a length above 9000",
            Fault::Flag => "a flag that is neither 0 nor 1",
            Fault::Phase => "a phase above 4",
            Fault::Input => "standard input cannot be read",
            Fault::Output => "standard output cannot be written",
        })
    }
}

impl Error for Fault {}
