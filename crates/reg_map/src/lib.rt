// Which register lies where in a page (document 01, 'The pages'; TIS section 10).
#![tactic(auto)]

ghost use Rattle.std.specs.Prelude.{◌≡◌};
ghost use Rattle.reg_map.specs.Map.{register_at, identity_at};

use reg_layout::{
    ACCESS, DATA_FIFO, IDENTITY, INT_ENABLE, INT_STATUS, INT_VECTOR, INTF_CAPABILITY, STS,
};

// A register of a page; the number is the byte within it, low byte first. A read knows no others, so hash start and end are not here;
// Reserved is a place that document 01 names, with rules of its own.
#[derive(Clone, Copy, PartialEq, Eq, Debug)]
pub enum Register {
    Access,
    IntEnable(u8),
    IntVector,
    IntStatus(u8),
    IntfCapability(u8),
    Sts(u8),
    DataFifo,
    Identity(u8),
    Reserved,
}

// The registers by their fours of bytes, so that finding one is a jump.
const ACCESS_FOUR: u16 = ACCESS / 4;

const INT_ENABLE_FOUR: u16 = INT_ENABLE / 4;

const INT_VECTOR_FOUR: u16 = INT_VECTOR / 4;

const INT_STATUS_FOUR: u16 = INT_STATUS / 4;

const INTF_CAPABILITY_FOUR: u16 = INTF_CAPABILITY / 4;

const STS_FOUR: u16 = STS / 4;

const DATA_FIFO_FOUR: u16 = DATA_FIFO / 4;

// The last of IDENTITY's five bytes.
const IDENTITY_LAST: u16 = IDENTITY + 4;

// ACCESS and INT_VECTOR have the first byte of their four, STS the first three; what is left of a four is reserved, as all else is.
#[tactic(auto, unfolding(crate::specs::Map::register_at))]
pub fn register_at(at: u16) -> Register
    ensures { result ≡ register_at at }
{
    // `as` here and below, since std has no From that narrows, and a try_from would have an Err that cannot come.
    let i = (at % 4) as u8;
    match at / 4 {
        ACCESS_FOUR if i == 0 => Register::Access,
        INT_ENABLE_FOUR => Register::IntEnable(i),
        INT_VECTOR_FOUR if i == 0 => Register::IntVector,
        INT_STATUS_FOUR => Register::IntStatus(i),
        INTF_CAPABILITY_FOUR => Register::IntfCapability(i),
        STS_FOUR if i < 3 => Register::Sts(i),
        DATA_FIFO_FOUR => Register::DataFifo,
        _ => identity_at(at),
    }
}

fn identity_at(at: u16) -> Register
    ensures { result ≡ identity_at at }
{
    match at {
        IDENTITY..=IDENTITY_LAST => Register::Identity((at - IDENTITY) as u8),
        _ => Register::Reserved,
    }
}
