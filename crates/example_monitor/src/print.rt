// A line for each call. One that cannot be written is left out: the monitor goes on.
use refusal::Refusal;
use std::fmt::{self, Display};

// The bytes of a command or an answer, each behind a space.
#[derive(Clone, Copy)]
pub struct Bytes<'a>(pub &'a [u8]);

impl Display for Bytes<'_> {
    fn fmt<W: fmt::Write>(&self, f: &mut fmt::Formatter<W>) -> fmt::Result {
        for byte in self.0 {
            write!(f, " {byte:02x}")?;
        }
        Ok(())
    }
}

// What happens next, in words.
pub fn line(rt: &impl Print, text: impl Display + Drop) {
    let _ = rt.println(text);
}

// A call, with the refusal number where there is one.
pub fn call(rt: &impl Print, text: impl Display + Drop, refusal: Option<Refusal>) {
    match refusal {
        None => line(rt, format_args!("    {text}")),
        Some(refusal) => line(
            rt,
            format_args!("    {text}, refused as {}", refusal.number()),
        ),
    }
}
