// An accepted read (document 01, 'The pages'): what each register gives, and what the read does to the phase.
#![tactic(auto)]

ghost use Rattle.std.specs.Prelude.{◌≡◌, get_or};
ghost use Rattle.bus_read.specs.Reading.{read_sts, unmoved as unmoved_spec, read_data_fifo, register_read};

use arbiter::Page;
use record::{Control, Phase};
use reg_access::access_byte;
use reg_fifo::{after_read, fifo_byte};
use reg_interrupts::{capability_byte, enable_byte, status_byte};
use reg_map::Register;
use reg_sts_read::size::Sizes;
use reg_sts_read::sts::sts_byte;

// What a read of a register gives, and the phase that it leaves.
#[derive(Clone, Copy)]
pub struct RegisterRead {
    pub byte: u8,
    pub phase: Phase,
}

// Of the active locality or not.
fn read_sts(active: bool, p: Phase, sizes: Sizes, i: u8) -> u8
    ensures { result ≡ read_sts active p sizes.declared sizes.fifo i }
{
    if active {
        return sts_byte(p, sizes.expects(p), sizes.fifo, i);
    }
    0xff
}

fn read_data_fifo(active: bool, p: Phase, read_fifo: &[u8]) -> RegisterRead
    ensures { result ≡ read_data_fifo active p read_fifo.now }
{
    if active {
        return RegisterRead {
            byte: fifo_byte(p, read_fifo),
            phase: after_read(p),
        };
    }
    unmoved(0xff, p)
}

fn identity_byte(identity: [u8; 5], i: u8) -> u8
    ensures { result ≡ get_or identity i 0 }
{
    identity.get(usize::from(i)).copied().unwrap_or(0)
}

// The phase stays.
fn unmoved(byte: u8, phase: Phase) -> RegisterRead
    ensures { result ≡ unmoved_spec byte phase }
{
    RegisterRead { byte, phase }
}

// Only a FIFO read moves the phase on; `active` is whether x is the active locality, asked once by the caller: the contract holds of either. The
// parts, and no `&Device`, as in the definition: a read of a register knows no PCR.
#[tactic(auto, unfolding(crate::specs::Reading::register_read))]
pub fn register_read(
    g: Register,
    x: Page,
    active: bool,
    control: Control,
    phase: Phase,
    identity: [u8; 5],
    sizes: Sizes,
    read_fifo: &[u8],
) -> RegisterRead
    ensures { result ≡ register_read g x.locality active control phase identity sizes.declared sizes.fifo read_fifo.now }
{
    match g {
        Register::Access => unmoved(access_byte(control.arbiter, control.established, x), phase),
        Register::IntEnable(i) => unmoved(enable_byte(control.interrupts, i), phase),
        Register::IntVector => unmoved(0, phase),
        Register::IntStatus(i) => unmoved(status_byte(control.interrupts, i), phase),
        Register::IntfCapability(i) => unmoved(capability_byte(i), phase),
        Register::Sts(i) => unmoved(read_sts(active, phase, sizes, i), phase),
        Register::DataFifo => read_data_fifo(active, phase, read_fifo),
        Register::Identity(i) => unmoved(identity_byte(identity, i), phase),
        Register::Reserved => unmoved(0xff, phase),
    }
}
