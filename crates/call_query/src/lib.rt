// The questions asked of the record, and of the permission table (document 01).
#![tactic(auto)]

ghost use Rattle.std.specs.Prelude.{◌≡◌, ◌≤◌, length};
ghost use Rattle.pcr.specs.Permission.{permission, may_reset, may_extend};
ghost use Rattle.call_admission.specs.Refusals.{lent_refusal_of};
ghost use Rattle.call_query.specs.Query.{pcr_value, interrupt_line, span_in, window_span, Window};

use arbiter::Locality;
use call_admission::{lent_admission, pcr_admission};
use pcr::{PcrIndex, Permission};
use record::{Device, Phase};
use record_shape::{lengths_of, view_of};
use refusal::Refusal;
use reg_interrupts::line_asserted;

// A PCR's value beside the refusal, since document 01 names a refused one's, twenty 00h (`refusals_change_nothing.value`).
#[derive(Clone, Copy, PartialEq, Eq, Debug)]
pub struct PcrOutcome {
    pub refusal: Option<Refusal>,
    pub value: [u8; 20],
}

// The bytes of a FIFO that are in use, in that FIFO's own memory, beside the refusal: a refused window shows none
// (`refusals_change_nothing.value`).
#[derive(Clone, Copy)]
pub struct WindowOutcome<'a> {
    pub refusal: Option<Refusal>,
    pub bytes: &'a [u8],
}

// This and the next differ in the table, which `pcr::table::permission` takes; users know both names, and the claims their contracts.
pub fn may_reset(index: PcrIndex, x: Locality) -> Permission
    ensures { result ≡ permission may_reset index.0 x.0 }
{
    pcr::table::may_reset(index, x)
}

pub fn may_extend(index: PcrIndex, x: Locality) -> Permission
    ensures { result ≡ permission may_extend index.0 x.0 }
{
    pcr::table::may_extend(index, x)
}

pub fn interrupt_line(device: Device) -> bool
    ensures { result ≡ interrupt_line device }
{
    line_asserted(device.control.interrupts)
}

#[tactic(auto, using(call_admission::proofs::RefusalLaws::pcr_below), unfolding(crate::specs::Query::pcr_value))]
pub fn pcr_value(device: Device, index: PcrIndex) -> PcrOutcome
    ensures { result ≡ pcr_value device index.0 }
{
    match pcr_admission(view_of(&device), index) {
        Ok(()) => PcrOutcome {
            refusal: None,
            value: pcr::bank::value_at(device.pcrs, index),
        },
        Err(refusal) => PcrOutcome {
            refusal: Some(refusal),
            value: [0; 20],
        },
    }
}

// The part of a FIFO that is in use.
fn part_in_use<'a>(phase: Phase, write_fifo: &'a [u8], read_fifo: &'a [u8]) -> &'a [u8]
    requires { ((span_in phase).start ≤ (span_in phase).stop) × ((span_in phase).stop ≤ length write_fifo.now) × ((span_in phase).stop ≤ length read_fifo.now) }
    ensures { Window (span_in phase) write_fifo.entry read_fifo.entry result }
{
    match phase {
        Phase::Idle | Phase::Ready => &write_fifo[..0],
        Phase::Reception(n) | Phase::Execution(n) => &write_fifo[..usize::from(n)],
        Phase::Completion(n, k) => &read_fifo[usize::from(k)..usize::from(n)],
    }
}

#[tactic(auto, using(crate::proofs::QueryLaws::span_fits), unfolding(crate::specs::Query::window_span))]
pub fn window<'a>(device: Device, write_fifo: &'a [u8], read_fifo: &'a [u8]) -> WindowOutcome<'a>
    ensures window { Window (window_span device write_fifo.now read_fifo.now) write_fifo.entry read_fifo.entry result.bytes }
    ensures refusal { result.refusal ≡ lent_refusal_of device write_fifo.now read_fifo.now }
{
    if let Err(refused) = lent_admission(view_of(&device), lengths_of(write_fifo, read_fifo)) {
        return WindowOutcome {
            refusal: Some(refused),
            bytes: &write_fifo[..0],
        };
    }
    WindowOutcome {
        refusal: None,
        bytes: part_in_use(device.phase, write_fifo, read_fifo),
    }
}
