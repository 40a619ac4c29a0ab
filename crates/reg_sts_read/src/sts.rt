// What STS reads.
ghost use Rattle.std.specs.Prelude.{◌≡◌, ◌-◌, ◌≤◌, min};
ghost use Rattle.record.specs.Limits.{burst_cap};
ghost use Rattle.reg_sts_read.specs.Status.{phase_bits, sts_low, burst_count, sts_byte};

use bits::flag_at;
use record::Phase;
use record::limits::BURST_CAP;
use reg_layout::sts::{COMMAND_READY, DATA_AVAIL, EXPECT, STS_VALID};

// commandReady and dataAvail.
fn phase_bits(p: Phase) -> u8
    ensures { (result ≡ phase_bits p) × (result ≤ 0x40) }
{
    match p {
        Phase::Ready => flag_at(true, COMMAND_READY),
        Phase::Completion(n, k) => flag_at(k < n, DATA_AVAIL),
        Phase::Idle | Phase::Reception(_) | Phase::Execution(_) => 0,
    }
}

#[tactic(auto, unfolding(crate::specs::Status::sts_low))]
fn sts_low(p: Phase, expect: bool) -> u8
    ensures { result ≡ sts_low p expect }
{
    flag_at(true, STS_VALID) + phase_bits(p) + flag_at(expect, EXPECT)
}

// The lesser of the cap and what is left between two counts.
fn burst_left(all: u16, done: u16) -> u16
    ensures { result ≡ min burst_cap (all - done) }
{
    BURST_CAP.min(all.saturating_sub(done))
}

// `expect` and c stay apart: the contract holds of any `expect`, and not only of what the two sizes give.
pub fn burst_count(p: Phase, expect: bool, c: u16) -> u16
    ensures { result ≡ burst_count p expect c }
{
    match p {
        Phase::Ready => BURST_CAP,
        Phase::Reception(n) if expect => burst_left(c, n),
        Phase::Completion(n, k) => burst_left(n, k),
        Phase::Idle | Phase::Reception(_) | Phase::Execution(_) => 0,
    }
}

#[tactic(auto, unfolding(crate::specs::Status::sts_byte))]
pub fn sts_byte(p: Phase, expect: bool, c: u16, i: u8) -> u8
    ensures { result ≡ sts_byte p expect c i }
{
    let [low, high] = burst_count(p, expect, c).to_le_bytes();
    match i {
        0 => sts_low(p, expect),
        1 => low,
        _ => high,
    }
}
