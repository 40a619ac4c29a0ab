// One write.
ghost use Rattle.std.specs.Prelude.{◌≡◌, ◌+◌, ◌<◌, ◌≤◌, ◌^◌, length};
ghost use Rattle.reg_layout.specs.Offsets.{last_offset};
ghost use Rattle.record.specs.Limits.{fifo_least, fifo_greatest};
ghost use Rattle.record.specs.Record.{hash_progress, with_parts};
ghost use Rattle.call_outcome.specs.Result.{Leaves};
ghost use Rattle.bus_resolve.specs.declared.WriteKind.TheVariants.{HashData};
ghost use Rattle.launch.specs.Launch.{launch_after, pcrs_after};
ghost use Rattle.call_bus.specs.Bus.{refused_write, accepted_write, write_cycle, Cycled, write as write_spec};

use arbiter::Page;
use bus_resolve::{WriteKind, page_at, resolve};
use bus_write::write_effect;
use call_admission::bus_admission;
use call_outcome::Outcome;
use launch::{hash_step, launch_after, overlong, pcrs_after};
use record::{Control, Device, Phase, hash_progress};
use record_shape::{lengths_of, view_of};
use refusal::Refusal;
use reg_fifo::{FifoAction, update_fifos};
use reg_sts_read::size::Sizes;
use reg_sts_write::completion::BAD_SIZE;

// What a write comes to but for the hash sequence and the PCRs, which its kind changes; a refused one
// leaves what it found, and its kind is Ignored, so that `write` puts either together in one way. No `Effect` in it: it would
// save three lines, but control, phase and FIFOs would lie one step deeper wherever they are named.
#[derive(Clone, Copy)]
pub struct WriteCycle {
    pub refusal: Option<Refusal>,
    pub kind: WriteKind,
    pub control: Control,
    pub phase: Phase,
    pub fifos: FifoAction,
}

fn refused_write(refusal: Refusal, control: Control, phase: Phase) -> WriteCycle
    ensures { result ≡ refused_write (Some refusal) control phase }
{
    WriteCycle {
        refusal: Some(refusal),
        kind: WriteKind::Ignored,
        control,
        phase,
        fifos: FifoAction::Keep,
    }
}

// What it requires is what `bus_admission` has found, as of a read.
#[tactic(auto, unfolding(crate::specs::Bus::accepted_write))]
fn accepted_write(
    kind: WriteKind,
    offset: u16,
    control: Control,
    phase: Phase,
    write_fifo: &mut [u8],
    read_fifo: &mut [u8],
    byte: u8,
) -> WriteCycle
    requires { (offset ≤ last_offset) × (fifo_least ≤ length write_fifo.old) × (length write_fifo.old ≤ fifo_greatest) × (length read_fifo.old ≡ length write_fifo.old) }
    ensures { Cycled result write_fifo.old read_fifo.old byte write_fifo.new read_fifo.new (accepted_write kind offset control phase write_fifo.old byte) }
{
    let e = write_effect(
        kind,
        Page {
            locality: page_at(offset),
        },
        control,
        phase,
        Sizes::of(write_fifo),
        byte,
    );
    update_fifos(e.fifos, write_fifo, read_fifo, byte, &BAD_SIZE);
    WriteCycle {
        refusal: None,
        kind,
        control: e.control,
        phase: e.phase,
        fifos: e.fifos,
    }
}

#[tactic(auto, unfolding(crate::specs::Bus::write_cycle))]
pub fn write_cycle(
    device: &Device,
    write_fifo: &mut [u8],
    read_fifo: &mut [u8],
    offset: u64,
    byte: u8,
) -> WriteCycle
    ensures { Cycled result write_fifo.old read_fifo.old byte write_fifo.new read_fifo.new (write_cycle device.now.control device.now.phase (hash_progress device.now.launch) write_fifo.old read_fifo.old offset byte) }
{
    let lengths = lengths_of(write_fifo, read_fifo);
    let at = match bus_admission(view_of(device), lengths, offset) {
        Ok(at) => at,
        Err(refusal) => return refused_write(refusal, device.control, device.phase),
    };
    let hash = hash_progress(device.launch);
    let kind = resolve(at, hash.sequence, device.control.arbiter.active);
    if overlong(kind, hash.count) {
        return refused_write(Refusal::HashLength, device.control, device.phase);
    }
    accepted_write(
        kind,
        at,
        device.control,
        device.phase,
        write_fifo,
        read_fifo,
        byte,
    )
}

// A step of the hash sequence: a function of its own, so that no other write pays for its copies of the bank and of the stream. The bank comes first,
// since an end measures the sequence that it closes.
fn take_hash_step(device: &mut Device, kind: WriteKind, byte: u8)
    requires { kind ≡ HashData → device.old.launch.stream.count + 1 < 2 ^ 32 }
    ensures { device.new ≡ with_parts device.old device.old.control device.old.phase (launch_after kind device.old.launch byte) (pcrs_after kind device.old.launch device.old.pcrs) }
{
    device.pcrs = pcrs_after(kind, device.launch, device.pcrs);
    device.launch = launch_after(kind, device.launch, byte);
}

#[tactic(auto, using(launch::proofs::LaunchLaws::launch_left, launch::proofs::LaunchLaws::pcrs_left), unfolding(crate::specs::Bus::write))]
pub fn write(
    mut device: Device,
    write_fifo: &mut [u8],
    read_fifo: &mut [u8],
    offset: u64,
    byte: u8,
) -> Outcome
    ensures { Leaves result write_fifo.new read_fifo.new (write_spec device write_fifo.old read_fifo.old offset byte) }
{
    let t = write_cycle(&device, write_fifo, read_fifo, offset, byte);
    device.control = t.control;
    device.phase = t.phase;
    if hash_step(t.kind) {
        take_hash_step(&mut device, t.kind, byte);
    }
    Outcome {
        refusal: t.refusal,
        device,
    }
}
