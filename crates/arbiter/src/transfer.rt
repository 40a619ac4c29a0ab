// How the device passes on: the next owner, the handover, and what a hash start does to ownership.
ghost use Rattle.std.specs.Prelude.{◌≡◌};
ghost use Rattle.arbiter.specs.Rules.{next_owner, serve as serve_spec, handover as handover_spec, start_counts, hash_start};

use crate::{Arbiter, Change, LOCALITIES, Locality, Page, with_active, with_waiting};
use bits::flag_at;
use reg_layout::HASH_LOCALITY;

// The highest locality that waits, or nobody. Flag k stands at bit k of the mask, whose highest set bit is number 7 less the zeros above it.
#[tactic(auto, using(crate::proofs::WaitingMask::highest_waits))]
pub fn next_owner(waiting: [bool; LOCALITIES]) -> Option<Locality>
    ensures { result ≡ next_owner waiting }
{
    // The mask and its leading zeros are document 02's own form (W3), so no `rposition`; the five lines are the sum of which `highest_waits` speaks.
    let mask = flag_at(waiting[0], 0)
        + flag_at(waiting[1], 1)
        + flag_at(waiting[2], 2)
        + flag_at(waiting[3], 3)
        + flag_at(waiting[4], 4);
    if mask == 0 {
        return None;
    }
    // `as`, since std has no From that narrows, and a try_from would have an Err that cannot come.
    let zeros = mask.leading_zeros();
    Some(Locality((7 - zeros) as u8))
}

pub fn serve(s: Arbiter, y: Page) -> Arbiter
    ensures { result ≡ serve_spec s y.locality }
{
    with_active(with_waiting(s, y, false), Some(y.locality))
}

// The one handover, of a release and of a hash end: the highest waiting locality is served, or the device is free.
#[tactic(auto, unfolding(crate::specs::Rules::handover))]
pub fn handover(s: Arbiter) -> Change
    ensures { result ≡ handover_spec s }
{
    match next_owner(s.waiting) {
        None => Change {
            arbiter: with_active(s, None),
            abort: true,
            locality_change: false,
        },
        Some(y) => Change {
            arbiter: serve(s, Page { locality: y }),
            abort: true,
            locality_change: true,
        },
    }
}

pub fn start_counts(o: Option<Locality>) -> bool
    ensures { result ≡ start_counts o }
{
    matches!(o, None | Some(Locality(HASH_LOCALITY)))
}

// A start that counts.
pub fn hash_start(s: Arbiter) -> Arbiter
    ensures { result ≡ hash_start s }
{
    with_active(s, Some(Locality(HASH_LOCALITY)))
}
