// An accepted write (document 01, 'The pages' to 'The launch hash'): what it does to control, phase and FIFOs.
#![tactic(auto)]

ghost use Rattle.std.specs.Prelude.{◌≡◌};
ghost use Rattle.bus_write.specs.Effect.{ignored as ignored_spec, aborted as aborted_spec, changed_control, apply_change, apply_command, apply_interrupts};
ghost use Rattle.bus_write.specs.Writing.{start_effect, register_write, write_effect};

use arbiter::access::write_access;
use arbiter::transfer::{handover, hash_start};
use arbiter::{Change, Page};
use bus_resolve::WriteKind;
use record::{Causes, Control, Interrupts, Phase};
use reg_fifo::FifoAction;
use reg_interrupts::{mark, write_enable, write_status};
use reg_map::Register;
use reg_sts_read::size::Sizes;
use reg_sts_write::Commanded;
use reg_sts_write::sts::{write_data_fifo, write_sts};

// What a write or an answer leaves of control and phase, and what happens to the FIFOs.
// The rules take control and phase as two, as `Device` has them: a read changes the phase alone, and no rule here sees the rest.
#[derive(Clone, Copy)]
pub struct Effect {
    pub control: Control,
    pub phase: Phase,
    pub fifos: FifoAction,
}

fn ignored(control: Control, phase: Phase) -> Effect
    ensures { result ≡ ignored_spec control phase }
{
    Effect {
        control,
        phase,
        fifos: FifoAction::Keep,
    }
}

// The owner's command is aborted: both FIFOs are cleared and the phase is Idle.
fn aborted(control: Control) -> Effect
    ensures { result ≡ aborted_spec control }
{
    Effect {
        control,
        phase: Phase::Idle,
        fifos: FifoAction::Clear,
    }
}

fn changed_control(control: Control, change: Change) -> Control
    ensures { result ≡ changed_control control change }
{
    let told = Causes {
        locality_change: change.locality_change,
        ..Causes::NONE
    };
    Control {
        arbiter: change.arbiter,
        interrupts: mark(control.interrupts, told),
        ..control
    }
}

// What a rule of the arbiter leaves.
#[tactic(auto, unfolding(crate::specs::Effect::apply_change))]
fn apply_change(control: Control, phase: Phase, change: Change) -> Effect
    ensures { result ≡ apply_change control phase change }
{
    let after = changed_control(control, change);
    if change.abort {
        return aborted(after);
    }
    ignored(after, phase)
}

// What a command bit, a FIFO write or an answer leaves.
#[tactic(auto, unfolding(crate::specs::Effect::apply_command))]
pub fn apply_command(control: Control, commanded: Commanded) -> Effect
    ensures { result ≡ apply_command control commanded }
{
    Effect {
        control: Control {
            interrupts: mark(control.interrupts, commanded.causes),
            run: commanded.run,
            ..control
        },
        phase: commanded.phase,
        fifos: commanded.fifos,
    }
}

fn start_effect(control: Control) -> Effect
    ensures { result ≡ start_effect control }
{
    aborted(Control {
        arbiter: hash_start(control.arbiter),
        established: true,
        ..control
    })
}

// ACCESS of any page, or another register of the active locality's.
#[tactic(auto, unfolding(crate::specs::Writing::register_write))]
fn register_write(
    g: Register,
    x: Page,
    control: Control,
    phase: Phase,
    sizes: Sizes,
    v: u8,
) -> Effect
    ensures { result ≡ register_write g x.locality control phase sizes.declared sizes.fifo v }
{
    match g {
        Register::Access => apply_change(control, phase, write_access(control.arbiter, x, v)),
        Register::IntEnable(i) => {
            apply_interrupts(control, phase, write_enable(control.interrupts, i, v))
        }
        Register::IntStatus(i) => {
            apply_interrupts(control, phase, write_status(control.interrupts, i, v))
        }
        Register::Sts(i) => apply_command(control, write_sts(phase, control.run, sizes, i, v)),
        Register::DataFifo => apply_command(control, write_data_fifo(phase, control.run, sizes)),
        Register::IntVector
        | Register::IntfCapability(_)
        | Register::Identity(_)
        | Register::Reserved => ignored(control, phase),
    }
}

// The interrupt registers alone are changed.
fn apply_interrupts(control: Control, phase: Phase, interrupts: Interrupts) -> Effect
    ensures { result ≡ apply_interrupts control phase interrupts }
{
    let control = Control {
        interrupts,
        ..control
    };
    ignored(control, phase)
}

#[tactic(auto, unfolding(crate::specs::Writing::write_effect))]
pub fn write_effect(
    kind: WriteKind,
    x: Page,
    control: Control,
    phase: Phase,
    sizes: Sizes,
    v: u8,
) -> Effect
    ensures { result ≡ write_effect kind x.locality control phase sizes.declared sizes.fifo v }
{
    match kind {
        WriteKind::HashStart => start_effect(control),
        WriteKind::HashEnd => apply_change(control, phase, handover(control.arbiter)),
        WriteKind::HashData | WriteKind::Ignored => ignored(control, phase),
        WriteKind::Ordinary(g) => register_write(g, x, control, phase, sizes, v),
    }
}
