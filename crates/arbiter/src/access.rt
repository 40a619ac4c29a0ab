// The rules of a write to ACCESS, on the arbiter state.
ghost use Rattle.std.specs.Prelude.{◌≡◌};
ghost use Rattle.arbiter.specs.State.{any_waits, holds as holds_spec};
ghost use Rattle.arbiter.specs.Rules.{keeps_command, access_command, request as request_spec, release as release_spec, seize as seize_spec, clear_seized, write_access};

use crate::transfer::{handover, serve};
use crate::{Arbiter, Change, LOCALITIES, Locality, Page, with_active, with_seized, with_waiting};
use bits::is_set;
use reg_layout::access::{ACTIVE_LOCALITY, BEEN_SEIZED, REQUEST_USE, SEIZE};

// The counted bit of a byte written to ACCESS, where one stands alone.
#[derive(Clone, Copy, PartialEq, Eq, Debug)]
pub enum AccessCommand {
    RequestUse,
    ActiveLocality,
    Seize,
    BeenSeized,
}

#[tactic(auto, unfolding(crate::specs::Rules::access_command))]
pub fn access_command(byte: u8) -> Option<AccessCommand>
    ensures { result ≡ access_command byte }
{
    let active = is_set(byte, ACTIVE_LOCALITY);
    let been = is_set(byte, BEEN_SEIZED);
    let seize = is_set(byte, SEIZE);
    let request = is_set(byte, REQUEST_USE);
    match (active, been, seize, request) {
        (true, false, false, false) => Some(AccessCommand::ActiveLocality),
        (false, true, false, false) => Some(AccessCommand::BeenSeized),
        (false, false, true, false) => Some(AccessCommand::Seize),
        (false, false, false, true) => Some(AccessCommand::RequestUse),
        _ => None,
    }
}

pub fn holds(o: Option<Locality>, x: Locality) -> bool
    ensures { result ≡ holds_spec o x }
{
    o == Some(x)
}

pub fn any_waits(w: [bool; LOCALITIES]) -> bool
    ensures { result ≡ any_waits w }
{
    w.contains(&true)
}

// A change that aborts no command and serves nobody.
fn keeps_command(s: Arbiter) -> Change
    ensures { result ≡ keeps_command s }
{
    Change {
        arbiter: s,
        abort: false,
        locality_change: false,
    }
}

#[tactic(auto, unfolding(crate::specs::Rules::request))]
pub fn request(s: Arbiter, x: Page) -> Change
    ensures { result ≡ request_spec s x.locality }
{
    match s.active {
        None => keeps_command(with_active(s, Some(x.locality))),
        Some(y) if y == x.locality => keeps_command(s),
        Some(_) => keeps_command(with_waiting(s, x, true)),
    }
}

// By the active locality; by one that waits it is a withdrawal.
#[tactic(auto, unfolding(crate::specs::Rules::release))]
pub fn release(s: Arbiter, x: Page) -> Change
    ensures { result ≡ release_spec s x.locality }
{
    if holds(s.active, x.locality) {
        return handover(s);
    }
    if s.waiting[x.index()] {
        return keeps_command(with_waiting(s, x, false));
    }
    keeps_command(s)
}

// From a lower locality alone; of a free device it is a request, and else it does nothing.
#[tactic(auto, unfolding(crate::specs::Rules::seize, crate::specs::Rules::request))]
pub fn seize(s: Arbiter, x: Page) -> Change
    ensures { result ≡ seize_spec s x.locality }
{
    match s.active {
        None => request(s, x),
        Some(y) if y < x.locality => Change {
            arbiter: with_seized(serve(s, x), Page { locality: y }, true),
            abort: true,
            locality_change: false,
        },
        Some(_) => keeps_command(s),
    }
}

#[tactic(auto, unfolding(crate::specs::Rules::clear_seized))]
pub fn clear_seized(s: Arbiter, x: Page) -> Change
    ensures { result ≡ clear_seized s x.locality }
{
    keeps_command(with_seized(s, x, false))
}

// A byte written to ACCESS of page x.
#[tactic(auto, unfolding(crate::specs::Rules::write_access))]
pub fn write_access(s: Arbiter, x: Page, byte: u8) -> Change
    ensures { result ≡ write_access s x.locality byte }
{
    match access_command(byte) {
        None => keeps_command(s),
        Some(AccessCommand::RequestUse) => request(s, x),
        Some(AccessCommand::ActiveLocality) => release(s, x),
        Some(AccessCommand::Seize) => seize(s, x),
        Some(AccessCommand::BeenSeized) => clear_seized(s, x),
    }
}
