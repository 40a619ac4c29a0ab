// The refusals of document 01's table 'When the front says no', each with the number that the table gives it.
#![tactic(auto)]

ghost use Rattle.std.specs.Prelude.{◌≡◌};
ghost use Rattle.refusal.specs.Refusal.{number as number_spec, number_of as number_of_spec};

use std::error::Error;
use std::fmt;

// What the front says no to; the table's words are what each displays as. A call that is accepted has no refusal.
#[derive(Clone, Copy, Debug, PartialEq, Eq)]
pub enum Refusal {
    Offset = 1,
    FifoLength = 2,
    Run = 3,
    AnswerLength = 4,
    Question = 5,
    Shape = 6,
    HashLength = 7,
}

impl Refusal {
    // A method and no From: README and the programs name it, and a call's own number is `number_of`.
    pub fn number(self) -> u8
        ensures { result ≡ number_spec self }
    {
        // `as` is how a variant's number is had: no derive gives a From.
        self as u8
    }
}

// The table's numbers by name, for who keeps or compares them; ACCEPTED is that of a call with no refusal.
pub const ACCEPTED: u8 = 0;

pub const OFFSET: u8 = Refusal::Offset as u8;

pub const FIFO_LENGTH: u8 = Refusal::FifoLength as u8;

pub const RUN: u8 = Refusal::Run as u8;

pub const ANSWER_LENGTH: u8 = Refusal::AnswerLength as u8;

pub const QUESTION: u8 = Refusal::Question as u8;

pub const SHAPE: u8 = Refusal::Shape as u8;

pub const HASH_LENGTH: u8 = Refusal::HashLength as u8;

impl fmt::Display for Refusal {
    fn fmt<W: fmt::Write>(&self, f: &mut fmt::Formatter<W>) -> fmt::Result {
        f.write_str(match self {
            Refusal::Offset => "bus offset above 4FFFh",
            Refusal::FifoLength => "a FIFO length outside 1,024..8,192, or the two differ",
            Refusal::Run => "engine answer while not in Execution, or with another run number",
            Refusal::AnswerLength => "engine answer shorter than 10 or longer than C",
            Refusal::Question => "question with PCR above 23 or locality above 4",
            Refusal::Shape => "record out of shape (the interrupt line question aside)",
            Refusal::HashLength => "hash byte number 1,048,577 or later",
        })
    }
}

impl Error for Refusal {}

// A call's refusal number: 0 where it was accepted.
pub fn number_of(refusal: Option<Refusal>) -> u8
    ensures { result ≡ number_of_spec refusal }
{
    refusal.map_or(0, Refusal::number)
}
