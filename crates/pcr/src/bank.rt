// The values of the 24 PCRs: fresh, at a hash start, read, and with one replaced.
ghost use Rattle.std.specs.Prelude.{◌≡◌, ◌<◌};
ghost use Rattle.pcr.specs.Bank.{pcrs, value_at, replaced as replaced_spec, with_dynamic, fresh as fresh_bank, launched as launched_bank};

use crate::{PCRS, Pcr, PcrIndex};

// The Dynamic RTM's PCRs are 17 to 22; the end is one past.
const DYNAMIC_FIRST: usize = 17;

const DYNAMIC_END: usize = 23;

// One rule for 00h and FFh, since the dynamic PCRs change together.
#[tactic(auto, unfolding(crate::specs::Bank::with_dynamic))]
pub fn with_dynamic(mut bank: [Pcr; PCRS], byte: u8) -> [Pcr; PCRS]
    ensures { result ≡ with_dynamic bank byte }
{
    let value = Pcr { bytes: [byte; 20] };
    bank[DYNAMIC_FIRST..DYNAMIC_END].fill(value);
    bank
}

// As TPM_Init leaves them (TIS Table 5).
#[tactic(auto, unfolding(crate::specs::Bank::fresh))]
pub fn fresh() -> [Pcr; PCRS]
    ensures { result ≡ fresh_bank }
{
    let zeros = Pcr { bytes: [0x00; 20] };
    with_dynamic([zeros; PCRS], 0xFF)
}

// As TPM_HASH_START leaves them.
pub fn launched(bank: [Pcr; PCRS]) -> [Pcr; PCRS]
    ensures { result ≡ launched_bank bank }
{
    with_dynamic(bank, 0x00)
}

// A question with a PCR above 23 is refused before it comes here.
pub fn value_at(bank: [Pcr; PCRS], p: PcrIndex) -> [u8; 20]
    requires { p.0 < pcrs }
    ensures { result ≡ value_at bank p.0 }
{
    bank[usize::from(p.0)].bytes
}

pub fn replaced(mut bank: [Pcr; PCRS], p: PcrIndex, value: [u8; 20]) -> [Pcr; PCRS]
    requires { p.0 < pcrs }
    ensures { result ≡ replaced_spec bank p.0 value }
{
    bank[usize::from(p.0)] = Pcr { bytes: value };
    bank
}
