// What an accepted write is: decided once, in document 01's order ('The waiting book', "first that applies").
#![tactic(auto)]

ghost use Rattle.std.specs.Prelude.{◌≡◌, cond, ◌≤◌};
ghost use Rattle.reg_layout.specs.Offsets.{in_four, page_of, hash_start};
ghost use Rattle.bus_resolve.specs.declared.WriteKind.TheVariants.{Ignored};
ghost use Rattle.bus_resolve.specs.Resolve.{page_at, resolve as resolve_spec};

use arbiter::Locality;
use arbiter::access::holds;
use arbiter::transfer::start_counts;
use reg_layout::{ACCESS, HASH_DATA, HASH_END, HASH_LOCALITY, HASH_START, PAGE};
use reg_map::{Register, register_at};

// A hash start that counts; the end of an open sequence; a byte for one; a write that nothing heeds; one that reaches a register: ACCESS of
// any page, any other register of the active locality's page alone. Ignored is a kind that document 01 names, and no missing one.
#[derive(Clone, Copy, PartialEq, Eq, Debug)]
pub enum WriteKind {
    HashStart,
    HashEnd,
    HashData,
    Ignored,
    Ordinary(Register),
}

// The locality whose page an offset lies in.
pub fn page_at(offset: u16) -> Locality
    ensures { (result ≡ page_at offset) × (result.0 ≡ page_of offset) }
{
    // `as`, since std has no From that narrows: a u16 lies in one of sixteen pages, so a try_from would have an Err that cannot come.
    Locality((offset / PAGE) as u8)
}

// The four offsets from a on.
fn in_four(a: u16, offset: u16) -> bool
    requires { a ≤ hash_start }
    ensures { result ≡ in_four a offset }
{
    (a..=a + 3).contains(&offset)
}

// A write that is `kind` where b, and is ignored else.
fn kind_if(b: bool, kind: WriteKind) -> WriteKind
    ensures { result ≡ cond b kind Ignored }
{
    if b { kind } else { WriteKind::Ignored }
}

#[tactic(auto, unfolding(crate::specs::Resolve::resolve))]
pub fn resolve(offset: u16, sequence: bool, owner: Option<Locality>) -> WriteKind
    ensures { result ≡ resolve_spec offset sequence owner }
{
    let x = page_at(offset);
    let at = offset % PAGE;
    if in_four(HASH_START, offset) {
        kind_if(start_counts(owner), WriteKind::HashStart)
    } else if in_four(HASH_END, offset) {
        kind_if(sequence, WriteKind::HashEnd)
    } else if sequence & (x.0 == HASH_LOCALITY) {
        kind_if(in_four(HASH_DATA, offset), WriteKind::HashData)
    } else if (at == ACCESS) | holds(owner, x) {
        WriteKind::Ordinary(register_at(at))
    } else {
        WriteKind::Ignored
    }
}
