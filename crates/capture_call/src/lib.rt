// One record as a call. An outcome has FFh for its byte unless the call is a read.
#![tactic(auto)]

ghost use Rattle.std.specs.Prelude.{◌≡◌};
ghost use Rattle.claims.specs.Calls.{state, called};
ghost use Rattle.capture_call.specs.Call.{call_of, without_byte, Gives};

use call_outcome::{Outcome, ReadOutcome};
use capture::Cycle;
use record::Device;

// The kinds' numbers (`capture::Cycle` says why they are no enum); any other kind is an answer's.
const READ: u8 = 0;

const WRITE: u8 = 1;

const RESET: u8 = 2;

// What the engine answers: TPM_TAG_RSP_COMMAND, ten bytes, success.
const ANSWER: [u8; 10] = [0x00, 0xc4, 0x00, 0x00, 0x00, 0x0a, 0x00, 0x00, 0x00, 0x00];

fn without_byte(o: Outcome) -> ReadOutcome
    ensures { result ≡ without_byte o }
{
    ReadOutcome {
        refusal: o.refusal,
        byte: 0xff,
        device: o.device,
    }
}

pub fn cycle(device: Device, c: Cycle, w: &mut [u8], r: &mut [u8]) -> ReadOutcome
    ensures { Gives result w.new r.new (called (call_of c) (state device w.old r.old)) }
{
    match c.kind {
        READ => tis::read(device, w, r, u64::from(c.offset)),
        WRITE => without_byte(tis::write(device, w, r, u64::from(c.offset), c.byte)),
        RESET => without_byte(tis::reset(device, w, r)),
        _ => without_byte(tis::respond(device, w, r, u32::from(c.offset), &ANSWER)),
    }
}
