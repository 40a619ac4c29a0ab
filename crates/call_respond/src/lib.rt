// The engine's answer (document 01, 'Commands').
#![tactic(auto)]

ghost use Rattle.std.specs.Prelude.{◌≡◌, ◌<◌, ◌≤◌, length};
ghost use Rattle.record.specs.Record.{hash_progress};
ghost use Rattle.call_outcome.specs.Result.{Leaves};
ghost use Rattle.call_respond.specs.Respond.{refused_answer, accepted_answer, answer_cycle, Answered, respond as respond_spec};

use bus_write::apply_command;
use call_admission::answer_admission;
use call_outcome::Outcome;
use record::{Control, Device, Phase};
use record_shape::{lengths_of, view_of};
use refusal::Refusal;
use reg_fifo::{FifoAction, update_fifos};
use reg_sts_write::completion::enter_completion;

// What an answer comes to; identity, hash sequence and PCRs stay. A refused one leaves what it found, so that `respond` puts either together in
// one way. No type and no `refused_` function in common with a write's: that has a kind of write, too. No `Effect` in it, for
// the reason at `WriteCycle`.
#[derive(Clone, Copy)]
pub struct AnswerCycle {
    pub refusal: Option<Refusal>,
    pub control: Control,
    pub phase: Phase,
    pub fifos: FifoAction,
}

fn refused_answer(refusal: Refusal, control: Control, phase: Phase) -> AnswerCycle
    ensures { result ≡ refused_answer (Some refusal) control phase }
{
    AnswerCycle {
        refusal: Some(refusal),
        control,
        phase,
        fifos: FifoAction::Keep,
    }
}

#[tactic(auto, unfolding(crate::specs::Respond::accepted_answer))]
fn accepted_answer(
    control: Control,
    write_fifo: &mut [u8],
    read_fifo: &mut [u8],
    answer: &[u8],
) -> AnswerCycle
    requires { (length answer.now < 65536) × (length answer.now ≤ length read_fifo.old) }
    ensures { Answered result write_fifo.old read_fifo.old answer.now write_fifo.new read_fifo.new (accepted_answer control (length answer.now)) }
{
    // `as`, since std has no From that narrows; that the length fits is required.
    let e = apply_command(control, enter_completion(answer.len() as u16, control.run));
    update_fifos(e.fifos, write_fifo, read_fifo, 0, answer);
    AnswerCycle {
        refusal: None,
        control: e.control,
        phase: e.phase,
        fifos: e.fifos,
    }
}

// 2, 6, 3, 4.
#[tactic(auto, unfolding(crate::specs::Respond::answer_cycle))]
pub fn answer_cycle(
    device: &Device,
    write_fifo: &mut [u8],
    read_fifo: &mut [u8],
    run: u32,
    answer: &[u8],
) -> AnswerCycle
    ensures { Answered result write_fifo.old read_fifo.old answer.now write_fifo.new read_fifo.new (answer_cycle device.now.control device.now.phase (hash_progress device.now.launch) write_fifo.old read_fifo.old run answer.now) }
{
    let lengths = lengths_of(write_fifo, read_fifo);
    let current = device.control.run;
    let length = answer.len();
    if let Err(refusal) = answer_admission(view_of(device), lengths, current, run, length) {
        return refused_answer(refusal, device.control, device.phase);
    }
    accepted_answer(device.control, write_fifo, read_fifo, answer)
}

#[tactic(auto, unfolding(crate::specs::Respond::respond))]
pub fn respond(
    mut device: Device,
    write_fifo: &mut [u8],
    read_fifo: &mut [u8],
    run: u32,
    answer: &[u8],
) -> Outcome
    ensures { Leaves result write_fifo.new read_fifo.new (respond_spec device write_fifo.old read_fifo.old run answer.now) }
{
    let t = answer_cycle(&device, write_fifo, read_fifo, run, answer);
    device.control = t.control;
    device.phase = t.phase;
    Outcome {
        refusal: t.refusal,
        device,
    }
}
