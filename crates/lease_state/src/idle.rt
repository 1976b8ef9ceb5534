//! No lease, and none is asked for.
ghost use Rattle.std.specs.Prelude.{◌≡◌, ◌≤◌, ◌^◌};

use crate::asking::Asking;

/// No lease.
#[derive(Debug, Drop)]
pub struct Idle;

impl Idle {
    /// No lease.
    pub fn new() -> Idle {
        Idle
    }

    /// A lease is asked for under this nonce, first at `now`, which is at most 2^62.
    pub fn ask(self, now: u64, nonce: u64) -> Asking
        requires { now ≤ 2 ^ 62 }
        ensures { result ≡ record { nonce = nonce; first = now } }
    {
        Asking::first(now, nonce)
    }
}
