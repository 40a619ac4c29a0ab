// What the command bits of STS and a FIFO write do to the phase.
ghost use Rattle.std.specs.Prelude.{◌≡◌};
ghost use Rattle.reg_sts_write.specs.Completion.{without_cause, ignored as ignored_spec};
ghost use Rattle.reg_sts_write.specs.Sts.{sts_command, command_ready, tpm_go_after, tpm_go, response_retry, commanded_by, write_sts, write_data_fifo};

use crate::Commanded;
use crate::completion::{BAD_SIZE, enter_completion};
use bits::is_set;
use record::limits::HEADER;
use record::{Causes, Phase};
use reg_fifo::FifoAction;
use reg_layout::sts::{COMMAND_READY, RESPONSE_RETRY, TPM_GO};
use reg_sts_read::size::Sizes;

// The counted bits of a byte written to STS.
#[derive(Clone, Copy, PartialEq, Eq, Debug)]
pub enum StsCommand {
    CommandReady,
    TpmGo,
    ResponseRetry,
}

// The one that stands alone, if one does.
#[tactic(auto, unfolding(crate::specs::Sts::sts_command))]
fn sts_command(v: u8) -> Option<StsCommand>
    ensures { result ≡ sts_command v }
{
    match (
        is_set(v, COMMAND_READY),
        is_set(v, TPM_GO),
        is_set(v, RESPONSE_RETRY),
    ) {
        (true, false, false) => Some(StsCommand::CommandReady),
        (false, true, false) => Some(StsCommand::TpmGo),
        (false, false, true) => Some(StsCommand::ResponseRetry),
        _ => None,
    }
}

fn without_cause(phase: Phase, run: u32, fifos: FifoAction) -> Commanded
    ensures { result ≡ without_cause phase run fifos }
{
    Commanded {
        phase,
        run,
        causes: Causes::NONE,
        fifos,
    }
}

fn ignored(p: Phase, run: u32) -> Commanded
    ensures { result ≡ ignored_spec p run }
{
    without_cause(p, run, FifoAction::Keep)
}

fn command_ready(p: Phase, run: u32) -> Commanded
    ensures { result ≡ command_ready p run }
{
    match p {
        Phase::Idle => Commanded {
            phase: Phase::Ready,
            run,
            causes: Causes::COMMAND_READY,
            fifos: FifoAction::Keep,
        },
        Phase::Ready => ignored(p, run),
        _ => without_cause(Phase::Idle, run, FifoAction::Clear),
    }
}

fn tpm_go_after(n: u16, run: u32, sizes: Sizes) -> Commanded
    ensures { result ≡ tpm_go_after n run sizes.declared sizes.fifo }
{
    if sizes.expects_after(n) {
        return ignored(Phase::Reception(n), run);
    }
    if u32::from(HEADER) <= sizes.declared && sizes.declared <= u32::from(sizes.fifo) {
        return without_cause(Phase::Execution(n), run.wrapping_add(1), FifoAction::Keep);
    }
    // `as`, since std has no From that narrows, and a try_from of ten would have an Err that cannot come.
    enter_completion(BAD_SIZE.len() as u16, run)
}

fn tpm_go(p: Phase, run: u32, sizes: Sizes) -> Commanded
    ensures { result ≡ tpm_go p run sizes.declared sizes.fifo }
{
    match p {
        Phase::Reception(n) => tpm_go_after(n, run, sizes),
        _ => ignored(p, run),
    }
}

fn response_retry(p: Phase, run: u32) -> Commanded
    ensures { result ≡ response_retry p run }
{
    match p {
        Phase::Completion(n, _) => without_cause(Phase::Completion(n, 0), run, FifoAction::Keep),
        _ => ignored(p, run),
    }
}

fn commanded_by(command: Option<StsCommand>, p: Phase, run: u32, sizes: Sizes) -> Commanded
    ensures { result ≡ commanded_by command p run sizes.declared sizes.fifo }
{
    match command {
        None => ignored(p, run),
        Some(StsCommand::CommandReady) => command_ready(p, run),
        Some(StsCommand::TpmGo) => tpm_go(p, run, sizes),
        Some(StsCommand::ResponseRetry) => response_retry(p, run),
    }
}

// A byte written to STS of the active locality.
#[tactic(auto, unfolding(crate::specs::Sts::write_sts))]
pub fn write_sts(p: Phase, run: u32, sizes: Sizes, i: u8, v: u8) -> Commanded
    ensures { result ≡ write_sts p run sizes.declared sizes.fifo i v }
{
    if i == 0 {
        return commanded_by(sts_command(v), p, run, sizes);
    }
    ignored(p, run)
}

// A byte written to the FIFO of the active locality.
pub fn write_data_fifo(p: Phase, run: u32, sizes: Sizes) -> Commanded
    ensures { result ≡ write_data_fifo p run sizes.declared sizes.fifo }
{
    match p {
        Phase::Ready => without_cause(Phase::Reception(1), run, FifoAction::Store(0)),
        Phase::Reception(n) if sizes.expects_after(n) => {
            without_cause(Phase::Reception(n + 1), run, FifoAction::Store(n))
        }
        _ => ignored(p, run),
    }
}
