// The launch hash (document 01, 'The launch hash'; TIS 8) on the hash sequence and the PCRs.
#![tactic(auto)]

ghost use Rattle.std.specs.Prelude.{◌≡◌, ◌+◌, ◌<◌, ◌^◌, true};
ghost use Rattle.bus_resolve.specs.declared.WriteKind.TheVariants.{HashData};
ghost use Rattle.launch.specs.Launch.{hash_step, overlong as overlong_spec, begun_launch, joined as joined_spec, launch_after, measured as measured_spec, pcrs_after};

use bus_resolve::WriteKind;
use pcr::{PCRS, Pcr, PcrIndex};
use record::limits::HASH_LIMIT;
use record::{Launch, closed_launch};
use sha1_message::Stream;

// The PCR that a launch is measured into.
const LAUNCH_PCR: PcrIndex = PcrIndex(17);

// Does the write change the sequence or a PCR. Refusal, sequence and PCRs each ask the kind by themselves, as their definitions do.
pub fn hash_step(k: WriteKind) -> bool
    ensures { result ≡ hash_step k }
{
    matches!(
        k,
        WriteKind::HashStart | WriteKind::HashEnd | WriteKind::HashData
    )
}

// Refused as 7; `count` is how many bytes the sequence took.
pub fn overlong(k: WriteKind, count: u32) -> bool
    ensures { result ≡ overlong_spec k count }
{
    matches!(k, WriteKind::HashData) && HASH_LIMIT <= count
}

fn begun_launch() -> Launch
    ensures { result ≡ begun_launch }
{
    Launch {
        sequence: true,
        stream: Stream::begin(),
    }
}

fn joined(l: Launch, v: u8) -> Launch
    requires { l.stream.count + 1 < 2 ^ 32 }
    ensures { result ≡ joined_spec l v }
{
    Launch {
        stream: l.stream.join(v),
        ..l
    }
}

#[tactic(auto, unfolding(crate::specs::Launch::launch_after))]
pub fn launch_after(k: WriteKind, l: Launch, v: u8) -> Launch
    requires { k ≡ HashData → l.stream.count + 1 < 2 ^ 32 }
    ensures { result ≡ launch_after k l v }
{
    match k {
        WriteKind::HashStart => begun_launch(),
        WriteKind::HashEnd => closed_launch(),
        WriteKind::HashData => joined(l, v),
        WriteKind::Ignored | WriteKind::Ordinary(_) => l,
    }
}

fn measured(bank: [Pcr; PCRS], l: Launch) -> [Pcr; PCRS]
    ensures { result ≡ measured_spec bank l }
{
    let digest = l.stream.finish();
    let value = pcr::bank::value_at(bank, LAUNCH_PCR);
    pcr::bank::replaced(bank, LAUNCH_PCR, sha1_message::extend(value, digest))
}

#[tactic(auto, unfolding(crate::specs::Launch::pcrs_after))]
pub fn pcrs_after(k: WriteKind, l: Launch, bank: [Pcr; PCRS]) -> [Pcr; PCRS]
    ensures { result ≡ pcrs_after k l bank }
{
    match k {
        WriteKind::HashStart => pcr::bank::launched(bank),
        WriteKind::HashEnd => measured(bank, l),
        WriteKind::HashData | WriteKind::Ignored | WriteKind::Ordinary(_) => bank,
    }
}
