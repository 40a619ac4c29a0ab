// The questions: each puts its outcome.
use crate::{lent, put_refusal};
use arbiter::Locality;
use pcr::{PcrIndex, Permission};
use replay_form::fields::Fields;
use replay_form::output::Output;
use replay_record::State;

pub fn pcr_value(s: &State, mut args: Fields<'_>, out: &mut Output) {
    let o = tis::pcr_value(s.device, PcrIndex(args.byte()));
    put_refusal(out, o.refusal);
    out.put(&o.value);
}

pub fn interrupt_line(s: &State, out: &mut Output) {
    out.put_flags([tis::interrupt_line(s.device)]);
}

// Whether a locality may reset a PCR, or extend it, as `may` says.
pub fn permission<F: FnOnce(PcrIndex, Locality) -> Permission>(
    may: F,
    mut args: Fields<'_>,
    out: &mut Output,
)
    requires { F.IsAlwaysCallable may }
{
    let p = may(PcrIndex(args.byte()), Locality(args.byte()));
    put_refusal(out, p.refusal);
    out.put_flags([p.allowed]);
}

pub fn window(s: &State, out: &mut Output) {
    let (n, m) = lent(s);
    let o = tis::window(s.device, &s.write[..n], &s.read[..m]);
    put_refusal(out, o.refusal);
    out.put_length(o.bytes);
    out.put(o.bytes);
}
