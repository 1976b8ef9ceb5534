//! A lease is asked for.
ghost use Rattle.std.specs.Prelude.{◌≡◌, ◌≤◌, ◌^◌, ◌+◌, nat_lt};
ghost use Rattle.lease_state.specs.Lease.{granted};

use crate::held::Held;
use crate::idle::Idle;
use std::marker::Model;

/// A lease is asked for. It may be granted for one term from the moment of the first Ask.
#[derive(Debug, Drop)]
pub struct Asking {
    nonce: u64,
    first: u64,
}

impl Model for Asking {
    ghost use Rattle.std.specs.Prelude.{◌≤◌, ◌^◌};
    ghost use Rattle.lease_state.specs.Lease.{Asked};

    ghost Value = { Asked };

    ghost view = { λ a. record { nonce = a.nonce; first = a.first } };

    ghost invariant = { λ a. a.first ≤ 2 ^ 62 };
}

/// A Grant came too late: the Ask was first sent at `first`, and its term was over at `now`.
#[derive(Clone, Copy, Debug, PartialEq, Eq)]
pub struct Late {
    pub first: u64,
    pub now: u64,
}

impl Asking {
    pub(crate) fn first(first: u64, nonce: u64) -> Asking
        requires { first ≤ 2 ^ 62 }
        ensures { result ≡ record { nonce = nonce; first = first } }
    {
        Asking { nonce, first }
    }

    /// The nonce of the Ask.
    pub fn nonce(&self) -> u64
        ensures { result ≡ self.now.nonce }
    {
        self.nonce
    }

    /// Whether a Grant at `now` is in time. The term `t_switch` is at most 2^62.
    pub fn young(&self, now: u64, t_switch: u64) -> bool
        requires { t_switch ≤ 2 ^ 62 }
        ensures { result ≡ nat_lt now (self.now.first + t_switch) }
    {
        now < self.first + t_switch
    }

    /// A lease of this epoch, for one term `t_switch` from the first Ask. The term is at most 2^62.
    ///
    /// # Errors
    /// `Late`, exactly where the Ask isn't young at `now`; there is no lease then.
    pub fn grant(self, now: u64, t_switch: u64, epoch: u64) -> Result<Held, (Late, Idle)>
        requires { t_switch ≤ 2 ^ 62 }
        ensures { result ≡ granted now t_switch epoch self }
    {
        let Asking { nonce, first } = self;
        if now < first + t_switch {
            Ok(Held::until(first + t_switch, nonce, epoch))
        } else {
            Err((Late { first, now }, Idle))
        }
    }

    /// No lease is wanted any more.
    pub fn give_up(self) -> Idle {
        Idle
    }
}
