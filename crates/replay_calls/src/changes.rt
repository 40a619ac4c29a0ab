// The calls that may change the record: each leaves the record and puts its outcome.
use crate::{front, lent, put_refusal};
use record::Device;
use replay_form::fields::Fields;
use replay_form::output::Output;
use replay_record::State;
use tis::Outcome;

// A call that has nothing to say but its refusal.
fn change<F: FnOnce(Device, &mut [u8], &mut [u8]) -> Outcome>(
    s: &mut State,
    out: &mut Output,
    call: F,
)
    requires { F.IsAlwaysCallable call }
{
    let (n, m) = lent(s);
    let o = call(s.device, front(&mut s.write, n), front(&mut s.read, m));
    s.device = o.device;
    put_refusal(out, o.refusal);
}

pub fn power_on(s: &mut State, mut args: Fields<'_>, out: &mut Output) {
    let established = args.flag();
    let identity = args.take();
    change(s, out, |_device, w, r| {
        tis::power_on(established, identity, w, r)
    });
}

pub fn reset(s: &mut State, out: &mut Output) {
    change(s, out, tis::reset);
}

pub fn read(s: &mut State, mut args: Fields<'_>, out: &mut Output) {
    let (n, m) = lent(s);
    let o = tis::read(s.device, &s.write[..n], &s.read[..m], args.u64());
    s.device = o.device;
    put_refusal(out, o.refusal);
    out.put(&[o.byte]);
}

pub fn write(s: &mut State, mut args: Fields<'_>, out: &mut Output) {
    let offset = args.u64();
    let byte = args.byte();
    change(s, out, |device, w, r| {
        tis::write(device, w, r, offset, byte)
    });
}

pub fn respond(s: &mut State, mut args: Fields<'_>, out: &mut Output) {
    let run = args.u32();
    let n = usize::from(args.u16());
    let answer = args.bytes(n);
    change(s, out, |device, w, r| {
        tis::respond(device, w, r, run, answer)
    });
}
