// What ACCESS reads (document 01, 'Who holds the device'; document 02, W2; TIS 11.3.10).
#![tactic(auto)]

ghost use Rattle.std.specs.Prelude.{◌≡◌};
ghost use Rattle.reg_access.specs.Access.{pending_request, access_bits, access_byte};

use arbiter::access::holds;
use arbiter::{Arbiter, Page};
use bits::flag_at;
use reg_layout::access::{
    ACTIVE_LOCALITY, BEEN_SEIZED, PENDING_REQUEST, REQUEST_USE, TPM_ESTABLISHMENT,
    TPM_REG_VALID_STS,
};

// A locality other than x waits; x's own request shows as requestUse.
fn pending_request(s: Arbiter, x: Page) -> bool
    ensures { result ≡ pending_request s x.locality }
{
    let own = x.index();
    let mut flags = s.waiting.iter().enumerate();
    flags.any(|(y, waits)| *waits & (y != own))
}

// The byte of those five flags.
#[tactic(auto, unfolding(crate::specs::Access::access_bits))]
fn access_bits(active: bool, seized: bool, pending: bool, waits: bool, established: bool) -> u8
    ensures { result ≡ access_bits active seized pending waits established }
{
    let valid = flag_at(true, TPM_REG_VALID_STS);
    let high = flag_at(active, ACTIVE_LOCALITY) + flag_at(seized, BEEN_SEIZED);
    let asked = flag_at(pending, PENDING_REQUEST) + flag_at(waits, REQUEST_USE);
    valid + high + asked + flag_at(!established, TPM_ESTABLISHMENT)
}

pub fn access_byte(s: Arbiter, established: bool, x: Page) -> u8
    ensures { result ≡ access_byte s established x.locality }
{
    access_bits(
        holds(s.active, x.locality),
        s.seized[x.index()],
        pending_request(s, x),
        s.waiting[x.index()],
        established,
    )
}
