// Which locality holds the device (document 01, 'Who holds the device'; TIS 11.3.10): types and rules on the arbiter state alone.
#![tactic(auto)]

ghost use Rattle.std.specs.Prelude.{◌≡◌, ◌<◌};
ghost use Rattle.arbiter.specs.State.{localities, fresh_arbiter, with_active, with_waiting, with_seized};

pub mod access;
pub mod transfer;

// The localities are 0 to 4.
pub const LOCALITIES: usize = 5;

// A locality number; a page's is at most 4, and a stored one may be anything.
#[derive(Clone, Copy, PartialEq, Eq, PartialOrd, Ord, Debug)]
pub struct Locality(pub u8);

// A locality that has a page. It is built where the range is known, and tested in `pcr::table::permission` alone: a TryFrom would give an Err
// at the other places, where none can come.
#[derive(Clone, Copy, PartialEq, Eq, Debug)]
pub struct Page {
    pub locality: Locality,
    ghost in_range: { locality.0 < localities },
}

impl Page {
    pub fn index(self) -> usize
        ensures { result ≡ self.locality.0 }
    {
        usize::from(self.locality.0)
    }
}

// The active locality, if the device is not free, which localities wait, and which were seized: two arrays, since `any_waits` and `next_owner` take
// one. The rules are functions of it and a page under the names of their definitions; methods would be the same with a dot.
#[derive(Clone, Copy, PartialEq, Eq, Debug)]
pub struct Arbiter {
    pub active: Option<Locality>,
    pub waiting: [bool; LOCALITIES],
    pub seized: [bool; LOCALITIES],
}

// What a rule leaves, and what follows from it: the owner's command is aborted, so both FIFOs are cleared and the phase is Idle (abort); a
// handover served a waiting locality, so localityChange is set in INT_STATUS (locality_change). Two flags, since the effects of a write ask each by
// itself.
#[derive(Clone, Copy, PartialEq, Eq, Debug)]
pub struct Change {
    pub arbiter: Arbiter,
    pub abort: bool,
    pub locality_change: bool,
}

// At power-on and reset.
pub fn fresh_arbiter() -> Arbiter
    ensures { result ≡ fresh_arbiter }
{
    Arbiter {
        active: None,
        waiting: [false; LOCALITIES],
        seized: [false; LOCALITIES],
    }
}

pub fn with_active(s: Arbiter, o: Option<Locality>) -> Arbiter
    ensures { result ≡ with_active s o }
{
    Arbiter { active: o, ..s }
}

// This and the next differ in the field, and a field can be no parameter.
pub fn with_waiting(mut s: Arbiter, x: Page, b: bool) -> Arbiter
    ensures { result ≡ with_waiting s x.locality.0 b }
{
    s.waiting[x.index()] = b;
    s
}

pub fn with_seized(mut s: Arbiter, x: Page, b: bool) -> Arbiter
    ensures { result ≡ with_seized s x.locality.0 b }
{
    s.seized[x.index()] = b;
    s
}
