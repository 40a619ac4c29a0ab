// The tests of each call, in document 01's order (document 01, 'When the front says no'): the first that fails is what the call is refused for.
#![tactic(auto)]

ghost use Rattle.std.specs.Prelude.{◌≡◌, ◌≤◌, IfOk};
ghost use Rattle.std.specs.Result.{result_err};
ghost use Rattle.reg_layout.specs.Offsets.{last_offset};
ghost use Rattle.call_admission.specs.Refusals.{lent_refusal, bus_refusal, executes as executes_spec, answer_refusal, pcr_refusal};

use pcr::{PCRS, PcrIndex};
use record::Phase;
use record::limits::{FIFO_GREATEST, HEADER};
use record_shape::{Lengths, ShapeView, in_shape, lengths_allowed};
use refusal::Refusal;
use reg_layout::LAST_OFFSET;

// 2, 6.
#[tactic(auto, using(crate::proofs::RefusalLaws::allowed_fits), unfolding(crate::specs::Refusals::lent_refusal))]
pub fn lent_admission(v: ShapeView, l: Lengths) -> Result<(), Refusal>
    ensures { result_err result ≡ lent_refusal v l }
{
    if !lengths_allowed(l) {
        return Err(Refusal::FifoLength);
    }
    // `as`, since std has no From that narrows: an allowed length fits (`allowed_fits`).
    if !in_shape(v, l.write as u16) {
        return Err(Refusal::Shape);
    }
    Ok(())
}

// 2, 6, 1. An offset that is taken is given as the number of sixteen bits that it is.
#[tactic(auto, unfolding(crate::specs::Refusals::bus_refusal))]
pub fn bus_admission(v: ShapeView, l: Lengths, offset: u64) -> Result<u16, Refusal>
    ensures refusal { result_err result ≡ bus_refusal v l offset }
    ensures taken { IfOk result (λ at. (at ≡ offset) × (at ≤ last_offset)) }
{
    lent_admission(v, l)?;
    match u16::try_from(offset) {
        Ok(at) if at <= LAST_OFFSET => Ok(at),
        _ => Err(Refusal::Offset),
    }
}

fn executes(p: Phase) -> bool
    ensures { result ≡ executes_spec p }
{
    matches!(p, Phase::Execution(_))
}

// 2, 6, 3, 4; `current` is the record's run number, `length` the answer's.
#[tactic(auto, unfolding(crate::specs::Refusals::answer_refusal))]
pub fn answer_admission(
    v: ShapeView,
    l: Lengths,
    current: u32,
    run: u32,
    length: usize,
) -> Result<(), Refusal>
    ensures { result_err result ≡ answer_refusal v l current run length }
{
    lent_admission(v, l)?;
    if !(executes(v.phase) & (current == run)) {
        return Err(Refusal::Run);
    }
    if (length < usize::from(HEADER)) | (l.write < length) {
        return Err(Refusal::AnswerLength);
    }
    Ok(())
}

// 6, 5.
#[tactic(auto, unfolding(crate::specs::Refusals::pcr_refusal))]
pub fn pcr_admission(v: ShapeView, index: PcrIndex) -> Result<(), Refusal>
    ensures { result_err result ≡ pcr_refusal v index.0 }
{
    if !in_shape(v, FIFO_GREATEST) {
        return Err(Refusal::Shape);
    }
    if PCRS <= usize::from(index.0) {
        return Err(Refusal::Question);
    }
    Ok(())
}
