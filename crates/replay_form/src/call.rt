// The call at the front of a stream: its opcode and its arguments, or why there is none.
ghost use Rattle.std.specs.Prelude.{◌+◌, ◌≤◌, length, IfOk, IfSome};

use crate::fault::Fault;
use crate::fields::Fields;
use crate::opcode::Opcode;
use crate::{FLAGS, IMAGE, LONGEST, PHASE};

// An opcode and its arguments, all of them.
#[derive(Clone, Copy)]
pub struct Call<'a> {
    pub opcode: Opcode,
    pub arguments: &'a [u8],
}

// The first count bytes, as far as they are there, are flags.
fn flags(arguments: &[u8], count: usize) -> Result<(), Fault> {
    if arguments.iter().take(count).all(|flag| *flag < 2) {
        Ok(())
    } else {
        Err(Fault::Flag)
    }
}

// A length of bytes that follow.
fn length(fields: &mut Fields<'_>) -> Result<usize, Fault>
    ensures { IfOk result (λ n. n ≤ LONGEST) }
{
    let n = usize::from(fields.u16());
    if LONGEST < n {
        return Err(Fault::TooLong);
    }
    Ok(n)
}

fn respond(mut fields: Fields<'_>) -> Result<usize, Fault> {
    fields.u32();
    Ok(6 + length(&mut fields)?)
}

fn load(arguments: &[u8]) -> Result<usize, Fault> {
    flags(arguments, FLAGS)?;
    if arguments.get(PHASE).is_some_and(|phase| 4 < *phase) {
        return Err(Fault::Phase);
    }
    let mut fields = Fields::new(arguments);
    fields.bytes(IMAGE);
    let w = length(&mut fields)?;
    let r = length(&mut fields)?;
    Ok(IMAGE + 4 + w + r)
}

// The bytes of a call's arguments, whether they are all there or not.
fn size(opcode: Opcode, arguments: &[u8]) -> Result<usize, Fault> {
    match opcode {
        Opcode::PowerOn => flags(arguments, 1).map(|_| 6),
        Opcode::Read => Ok(8),
        Opcode::Write => Ok(9),
        Opcode::Respond => respond(Fields::new(arguments)),
        Opcode::PcrValue => Ok(1),
        Opcode::MayReset | Opcode::MayExtend => Ok(2),
        Opcode::Load => load(arguments),
        Opcode::Reset | Opcode::InterruptLine | Opcode::Window | Opcode::Dump => Ok(0),
    }
}

// The call at the front of the bytes that are left, if any is.
pub fn next_call(bytes: &[u8]) -> Result<Option<Call<'_>>, Fault>
    ensures { IfOk result (λ next. IfSome next (λ call. 1 + length call.arguments.now ≤ length bytes.now)) }
{
    let Some((first, rest)) = bytes.split_first() else {
        return Ok(None);
    };
    let opcode = Opcode::try_from(*first)?;
    let size = size(opcode, rest)?;
    let arguments = rest.get(..size).ok_or(Fault::Cut)?;
    Ok(Some(Call { opcode, arguments }))
}
