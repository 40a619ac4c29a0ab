// Why a run ends before its end: what the one line on standard error says of it.
use std::error::Error;
use std::fmt;

#[derive(Clone, Copy, Debug, PartialEq, Eq)]
pub enum Fault {
    Input,
    Output,
}

impl fmt::Display for Fault {
    fn fmt<W: fmt::Write>(&self, f: &mut fmt::Formatter<W>) -> fmt::Result {
        f.write_str(match self {
            Fault::Input => "standard input cannot be read",
            Fault::Output => "standard output cannot be written",
        })
    }
}

impl Error for Fault {}
