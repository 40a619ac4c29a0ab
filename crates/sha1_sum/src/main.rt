// Writes the SHA-1 of each message of its standard input, where a message is a 16-bit length, high byte first, and that many bytes.
#![tactic(auto)]

ghost use Rattle.std.specs.Prelude.{◌≤◌, ⊤, length, IfOk, MatchOption};

use std::error::Error;
use std::fmt;

const STDIN_FILENO: i32 = 0;

// The longest message, in bytes; `Fault::TooLong` says the number too.
const LONGEST: usize = 4096;

// What ends a run before its input does.
#[derive(Clone, Copy, Debug, PartialEq, Eq)]
enum Fault {
    Truncated,
    TooLong,
}

impl fmt::Display for Fault {
    fn fmt<W: fmt::Write>(&self, f: &mut fmt::Formatter<W>) -> fmt::Result {
        f.write_str(match self {
            Fault::Truncated => "truncated message",
            Fault::TooLong => "message longer than 4096 bytes",
        })
    }
}

impl Error for Fault {}

// The length of the next message, and None where the input ends. std's read_exact would not tell that end from half a length.
fn next_length() -> Result<Option<usize>, Fault>
    ensures { IfOk result (λ o. MatchOption o ⊤ (λ n. n ≤ LONGEST)) }
{
    let mut head = [0u8; 2];
    let got = io::read_full(STDIN_FILENO, &mut head);
    if got == 0 {
        return Ok(None);
    }
    if got < 2 {
        return Err(Fault::Truncated);
    }
    let n = usize::from(u16::from_be_bytes(head));
    if n > LONGEST {
        return Err(Fault::TooLong);
    }
    Ok(Some(n))
}

// Reads a message that fills the slice, by `read_full` as its length is, and writes its digest; one that cannot be written is left out.
fn sum(rt: &impl Print, body: &mut [u8]) -> Result<(), Fault>
    requires { length body.old ≤ LONGEST }
{
    if io::read_full(STDIN_FILENO, body) < body.len() {
        return Err(Fault::Truncated);
    }
    let _ = rt.write_all(&sha1_text::hex(sha1_message::hash(body)));
    let _ = rt.write_all(b"\n");
    Ok(())
}

// One message. Answers whether there was one.
fn message(rt: &impl Print) -> Result<bool, Fault> {
    let Some(n) = next_length()? else {
        return Ok(false);
    };
    let mut body = [0; LONGEST];
    sum(rt, &mut body[..n])?;
    Ok(true)
}

// A proved loop has to end, and nothing says that the input does: the turns are counted up to a number that no run comes to.
fn run(rt: &impl Print) -> Result<(), Fault> {
    for _ in 0..u64::MAX {
        if !message(rt)? {
            break;
        }
    }
    Ok(())
}

fn main(rt: HostRuntime) {
    if let Err(fault) = run(&rt) {
        let _ = println!(rt; "{fault}");
    }
}
