// The first byte of a call, which names it.
use crate::fault::Fault;

#[derive(Clone, Copy, Debug, PartialEq, Eq)]
pub enum Opcode {
    PowerOn,
    Reset,
    Read,
    Write,
    Respond,
    PcrValue,
    InterruptLine,
    MayReset,
    MayExtend,
    Window,
    Load,
    Dump,
}

impl TryFrom<u8> for Opcode {
    type Error = Fault;

    // docs/REPLAY.md's letters, each decoded here, once: what follows goes by the enum.
    fn try_from(byte: u8) -> Result<Opcode, Fault> {
        Ok(match byte {
            b'P' => Opcode::PowerOn,
            b'Z' => Opcode::Reset,
            b'R' => Opcode::Read,
            b'W' => Opcode::Write,
            b'A' => Opcode::Respond,
            b'V' => Opcode::PcrValue,
            b'L' => Opcode::InterruptLine,
            b'C' => Opcode::MayReset,
            b'E' => Opcode::MayExtend,
            b'M' => Opcode::Window,
            b'S' => Opcode::Load,
            b'D' => Opcode::Dump,
            _ => return Err(Fault::Unknown),
        })
    }
}
