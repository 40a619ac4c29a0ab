// One call of the list on the record and the FIFOs, by its opcode.
#![tactic(auto)]

use replay_calls::{asking, changes};
use replay_form::call::Call;
use replay_form::fields::Fields;
use replay_form::opcode::Opcode;
use replay_form::output::Output;
use replay_record::State;

// The call is made, and its outcome put: the one switch on the opcode that acts; `Opcode` and `size` are tables of the form.
pub fn play(s: &mut State, call: Call<'_>, out: &mut Output) {
    let args = Fields::new(call.arguments);
    match call.opcode {
        Opcode::PowerOn => changes::power_on(s, args, out),
        Opcode::Reset => changes::reset(s, out),
        Opcode::Read => changes::read(s, args, out),
        Opcode::Write => changes::write(s, args, out),
        Opcode::Respond => changes::respond(s, args, out),
        Opcode::PcrValue => asking::pcr_value(s, args, out),
        Opcode::InterruptLine => asking::interrupt_line(s, out),
        Opcode::MayReset => asking::permission(tis::may_reset, args, out),
        Opcode::MayExtend => asking::permission(tis::may_extend, args, out),
        Opcode::Window => asking::window(s, out),
        Opcode::Load => s.load(args),
        Opcode::Dump => s.dump(out),
    }
}
