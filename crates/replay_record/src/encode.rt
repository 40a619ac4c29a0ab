// The image of a record.
use record::{Causes, Device, Interrupts, Phase};
use replay_form::output::Output;
use sha1_message::Stream;

fn put_causes(out: &mut Output, causes: Causes) {
    out.put_flags([
        causes.command_ready,
        causes.locality_change,
        causes.data_avail,
    ]);
}

fn put_interrupts(out: &mut Output, interrupts: Interrupts) {
    out.put_flags([interrupts.global]);
    put_causes(out, interrupts.enable);
    put_causes(out, interrupts.status);
}

// The numbers are the image's (docs/REPLAY.md), as in `decode`.
fn put_phase(out: &mut Output, phase: Phase) {
    let (kind, n, k) = match phase {
        Phase::Idle => (0, 0, 0),
        Phase::Ready => (1, 0, 0),
        Phase::Reception(n) => (2, n, 0),
        Phase::Execution(n) => (3, n, 0),
        Phase::Completion(n, k) => (4, n, k),
    };
    out.put(&[kind]);
    out.put(&n.to_le_bytes());
    out.put(&k.to_le_bytes());
}

fn put_stream(out: &mut Output, stream: Stream) {
    for word in &stream.h {
        out.put(&word.to_le_bytes());
    }
    out.put(&stream.tail);
    out.put(&stream.count.to_le_bytes());
}

pub fn put_device(out: &mut Output, device: Device) {
    let control = device.control;
    let arbiter = control.arbiter;
    out.put_flags([arbiter.active.is_some()]);
    out.put_flags(arbiter.waiting);
    out.put_flags(arbiter.seized);
    put_interrupts(out, control.interrupts);
    out.put_flags([control.established, device.launch.sequence]);
    out.put(&[arbiter.active.map_or(0, |locality| locality.0)]);
    put_phase(out, device.phase);
    out.put(&device.identity);
    out.put(&control.run.to_le_bytes());
    put_stream(out, device.launch.stream);
    for pcr in &device.pcrs {
        out.put(&pcr.bytes);
    }
}
