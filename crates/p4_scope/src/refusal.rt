//! Faults: a place and a cause, of which the least one counts.
ghost use Rattle.std.specs.Prelude.{◌≡◌};
ghost use Rattle.p4_scope.specs.Faults.{rank, is_first, first_of, fault, fault_if};

use rp_base::{Refused, Why};

fn rank(why: Why) -> u64
    ensures { result ≡ rank why }
{
    match why {
        Why::Unknown => 1,
        Why::Twice => 2,
        Why::Kind => 3,
        Why::Width => 4,
        Why::Fit => 5,
        Why::Cycle => 6,
        Why::Key => 7,
        Why::Cells => 8,
        Why::Entry => 9,
        _ => 0,
    }
}

fn is_first(f: Refused, g: Refused) -> bool
    ensures { result ≡ is_first f g }
{
    f.at < g.at || (f.at == g.at && rank(f.why) <= rank(g.why))
}

/// The one with the lesser place; at one place, the one with the earlier cause.
pub fn earlier(f: Option<Refused>, g: Option<Refused>) -> Option<Refused>
    ensures { result ≡ first_of f g }
{
    match (f, g) {
        (None, g) => g,
        (f, None) => f,
        (Some(f), Some(g)) => { if is_first(f, g) { Some(f) } else { Some(g) } }
    }
}

/// A fault of this cause at this place.
pub fn fault(why: Why, at: u64) -> Option<Refused>
    ensures { result ≡ fault why at }
{
    Some(Refused { at, why })
}

/// The same, where something is bad.
pub fn fault_if(bad: bool, why: Why, at: u64) -> Option<Refused>
    ensures { result ≡ fault_if bad why at }
{
    if bad { fault(why, at) } else { None }
}
