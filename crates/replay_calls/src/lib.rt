// One function for each opcode: it takes the arguments, makes the call and puts the outcome.
// The output stays a parameter beside the state, as a writer does in std: a struct of both would lend the record to a question by `&mut`, too.
#![tactic(auto)]

ghost use Rattle.std.specs.Prelude.{◌≤◌};

use refusal::{Refusal, number_of};
use replay_form::LONGEST;
use replay_form::output::Output;
use replay_record::State;

pub mod asking;
pub mod changes;

// Each outcome of a call that may be refused begins so: its number.
fn put_refusal(out: &mut Output, refusal: Option<Refusal>) {
    out.put(&[number_of(refusal)]);
}

// How many bytes of each FIFO are lent.
fn lent(s: &State) -> (usize, usize)
    ensures { (result.0 ≤ LONGEST) × (result.1 ≤ LONGEST) }
{
    (s.write_length.min(LONGEST), s.read_length.min(LONGEST))
}

// The first n bytes of a FIFO: a function, since two fields lent in part beside each other are not covered by the check of loans.
fn front(fifo: &mut [u8; LONGEST], n: usize) -> &mut [u8]
    requires { n ≤ LONGEST }
{
    &mut fifo[..n]
}
