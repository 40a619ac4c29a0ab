// Power-on and reset (document 01, 'What the device record carries').
#![tactic(auto)]

ghost use Rattle.call_outcome.specs.Result.{Leaves};
ghost use Rattle.call_power.specs.Power.{power_on, reset as reset_spec};

use call_admission::lent_admission;
use call_outcome::Outcome;
use record::{Device, fresh_device};
use record_shape::{lengths_allowed, lengths_of, view_of};
use refusal::Refusal;
use reg_fifo::clear_fifo;

#[tactic(auto, unfolding(crate::specs::Power::power_on))]
pub fn power_on(
    established: bool,
    identity: [u8; 5],
    write_fifo: &mut [u8],
    read_fifo: &mut [u8],
) -> Outcome
    ensures { Leaves result write_fifo.new read_fifo.new (power_on established identity write_fifo.old read_fifo.old) }
{
    let device = fresh_device(established, identity, 0);
    if !lengths_allowed(lengths_of(write_fifo, read_fifo)) {
        return Outcome {
            refusal: Some(Refusal::FifoLength),
            device,
        };
    }
    clear_fifo(write_fifo);
    clear_fifo(read_fifo);
    Outcome {
        refusal: None,
        device,
    }
}

#[tactic(auto, unfolding(crate::specs::Power::reset))]
pub fn reset(device: Device, write_fifo: &mut [u8], read_fifo: &mut [u8]) -> Outcome
    ensures { Leaves result write_fifo.new read_fifo.new (reset_spec device write_fifo.old read_fifo.old) }
{
    if let Err(refusal) = lent_admission(view_of(&device), lengths_of(write_fifo, read_fifo)) {
        return Outcome {
            refusal: Some(refusal),
            device,
        };
    }
    clear_fifo(write_fifo);
    clear_fifo(read_fifo);
    Outcome {
        refusal: None,
        device: fresh_device(
            device.control.established,
            device.identity,
            device.control.run,
        ),
    }
}
