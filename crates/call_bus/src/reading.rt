// One read.
ghost use Rattle.std.specs.Prelude.{◌≡◌, ◌≤◌, length};
ghost use Rattle.reg_layout.specs.Offsets.{last_offset};
ghost use Rattle.record.specs.Limits.{fifo_least, fifo_greatest};
ghost use Rattle.record.specs.Record.{hash_progress};
ghost use Rattle.call_bus.specs.Bus.{accepted_read, read_cycle, read as read_spec};

use arbiter::Page;
use arbiter::access::holds;
use bus_read::register_read;
use bus_resolve::page_at;
use call_admission::bus_admission;
use call_outcome::ReadOutcome;
use record::{Control, Device, Phase};
use record_shape::{lengths_of, view_of};
use refusal::Refusal;
use reg_layout::PAGE;
use reg_map::register_at;
use reg_sts_read::size::Sizes;

// What a read comes to: of the record only the phase may change. The refusal stands beside, since a refused read has a byte too. No
// `RegisterRead` in it: it would save two lines, but byte and phase would lie one step deeper wherever they are named.
#[derive(Clone, Copy)]
pub struct ReadCycle {
    pub refusal: Option<Refusal>,
    pub byte: u8,
    pub phase: Phase,
}

// What it requires is what `bus_admission` has found; a type for that would serve this place and a write's alone.
#[tactic(auto, unfolding(crate::specs::Bus::accepted_read))]
fn accepted_read(
    offset: u16,
    control: Control,
    phase: Phase,
    identity: [u8; 5],
    write_fifo: &[u8],
    read_fifo: &[u8],
) -> ReadCycle
    requires { (offset ≤ last_offset) × (fifo_least ≤ length write_fifo.now) × (length write_fifo.now ≤ fifo_greatest) }
    ensures { result ≡ accepted_read offset control phase identity write_fifo.now read_fifo.now }
{
    let locality = page_at(offset);
    let s = register_read(
        register_at(offset % PAGE),
        Page { locality },
        holds(control.arbiter.active, locality),
        control,
        phase,
        identity,
        Sizes::of(write_fifo),
        read_fifo,
    );
    ReadCycle {
        refusal: None,
        byte: s.byte,
        phase: s.phase,
    }
}

#[tactic(auto, unfolding(crate::specs::Bus::read_cycle))]
pub fn read_cycle(device: &Device, write_fifo: &[u8], read_fifo: &[u8], offset: u64) -> ReadCycle
    ensures { result ≡ read_cycle device.now.control device.now.phase (hash_progress device.now.launch) device.now.identity write_fifo.now read_fifo.now offset }
{
    let lengths = lengths_of(write_fifo, read_fifo);
    match bus_admission(view_of(device), lengths, offset) {
        Ok(at) => accepted_read(
            at,
            device.control,
            device.phase,
            device.identity,
            write_fifo,
            read_fifo,
        ),
        Err(refusal) => ReadCycle {
            refusal: Some(refusal),
            byte: 0xff,
            phase: device.phase,
        },
    }
}

#[tactic(auto, unfolding(crate::specs::Bus::read))]
pub fn read(mut device: Device, write_fifo: &[u8], read_fifo: &[u8], offset: u64) -> ReadOutcome
    ensures { result ≡ read_spec device write_fifo.now read_fifo.now offset }
{
    let t = read_cycle(&device, write_fifo, read_fifo, offset);
    device.phase = t.phase;
    ReadOutcome {
        refusal: t.refusal,
        byte: t.byte,
        device,
    }
}
