// The interrupt registers (document 01, 'Interrupts'; TIS 12): what they read and store, how a cause is set, the line, and the capability
// byte.
#![tactic(auto)]

ghost use Rattle.std.specs.Prelude.{◌≡◌, ◌≤◌};
ghost use Rattle.reg_interrupts.specs.Interrupts.{cause_bits, enable_byte, status_byte, capability_byte, causes_of, write_enable, write_status, mark as mark_spec, line_asserted};

use bits::{flag_at, is_set};
use record::{Causes, Interrupts};
use reg_layout::interrupt::{
    COMMAND_READY, DATA_AVAIL, GLOBAL_BYTE, GLOBAL_INT_ENABLE, LOCALITY_CHANGE, LOW_LEVEL,
};

fn cause_bits(k: Causes) -> u8
    ensures { (result ≡ cause_bits k) × (result ≤ 0x85) }
{
    flag_at(k.command_ready, COMMAND_READY)
        + flag_at(k.locality_change, LOCALITY_CHANGE)
        + flag_at(k.data_avail, DATA_AVAIL)
}

#[tactic(auto, unfolding(crate::specs::Interrupts::enable_byte))]
pub fn enable_byte(s: Interrupts, i: u8) -> u8
    ensures { result ≡ enable_byte s i }
{
    match i {
        0 => cause_bits(s.enable) + flag_at(true, LOW_LEVEL),
        GLOBAL_BYTE => flag_at(s.global, GLOBAL_INT_ENABLE),
        _ => 0,
    }
}

#[tactic(auto, unfolding(crate::specs::Interrupts::status_byte))]
pub fn status_byte(s: Interrupts, i: u8) -> u8
    ensures { result ≡ status_byte s i }
{
    if i == 0 { cause_bits(s.status) } else { 0 }
}

#[tactic(auto, unfolding(crate::specs::Interrupts::capability_byte))]
pub fn capability_byte(i: u8) -> u8
    ensures { result ≡ capability_byte i }
{
    if i == 0 { 0x95 } else { 0 }
}

// The causes whose bits are set in a byte.
fn causes_of(v: u8) -> Causes
    ensures { result ≡ causes_of v }
{
    Causes {
        command_ready: is_set(v, COMMAND_READY),
        locality_change: is_set(v, LOCALITY_CHANGE),
        data_avail: is_set(v, DATA_AVAIL),
    }
}

#[tactic(auto, unfolding(crate::specs::Interrupts::write_enable))]
pub fn write_enable(s: Interrupts, i: u8, v: u8) -> Interrupts
    ensures { result ≡ write_enable s i v }
{
    match i {
        0 => Interrupts {
            enable: causes_of(v),
            ..s
        },
        GLOBAL_BYTE => Interrupts {
            global: is_set(v, GLOBAL_INT_ENABLE),
            ..s
        },
        _ => s,
    }
}

#[tactic(auto, unfolding(crate::specs::Interrupts::write_status))]
pub fn write_status(s: Interrupts, i: u8, v: u8) -> Interrupts
    ensures { result ≡ write_status s i v }
{
    if i != 0 {
        return s;
    }
    Interrupts {
        status: s.status.without(causes_of(v)),
        ..s
    }
}

// The causes given are set in INT_STATUS.
pub fn mark(s: Interrupts, k: Causes) -> Interrupts
    ensures { result ≡ mark_spec s k }
{
    Interrupts {
        status: s.status.either(k),
        ..s
    }
}

#[tactic(auto, unfolding(crate::specs::Interrupts::line_asserted))]
pub fn line_asserted(s: Interrupts) -> bool
    ensures { result ≡ line_asserted s }
{
    s.global && s.enable.share(s.status)
}
