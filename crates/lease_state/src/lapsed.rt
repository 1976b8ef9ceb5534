//! A lease that is over, and may still be renewed.
ghost use Rattle.std.specs.Prelude.{◌≡◌, ◌≤◌, ◌^◌};
ghost use Rattle.lease_state.specs.Lease.{renewed};

use crate::held::Held;
use crate::idle::Idle;
use std::marker::Model;

/// A lease that ended at its expiry.
#[derive(Debug, Drop)]
pub struct Lapsed {
    nonce: u64,
    epoch: u64,
    expiry: u64,
}

impl Model for Lapsed {
    ghost use Rattle.lease_state.specs.Lease.{Term};

    ghost Value = { Term };

    ghost view = { λ l. record { nonce = l.nonce; epoch = l.epoch; expiry = l.expiry } };
}

impl Lapsed {
    pub(crate) fn at(expiry: u64, nonce: u64, epoch: u64) -> Lapsed
        ensures { result ≡ record { nonce = nonce; epoch = epoch; expiry = expiry } }
    {
        Lapsed {
            nonce,
            epoch,
            expiry,
        }
    }

    /// The nonce under which the lease was asked for.
    pub fn nonce(&self) -> u64
        ensures { result ≡ self.now.nonce }
    {
        self.nonce
    }

    /// The epoch that was granted.
    pub fn epoch(&self) -> u64
        ensures { result ≡ self.now.epoch }
    {
        self.epoch
    }

    /// The lease for one term `t_switch` from `sent_at`. Both are at most 2^62.
    ///
    /// # Errors
    /// The lease itself, exactly where that term is over at `now`.
    pub fn renew(self, now: u64, sent_at: u64, t_switch: u64) -> Result<Held, Lapsed>
        requires moment { sent_at ≤ 2 ^ 62 }
        requires term { t_switch ≤ 2 ^ 62 }
        ensures { result ≡ renewed now sent_at t_switch self }
    {
        if now >= sent_at + t_switch {
            return Err(self);
        }
        let Lapsed {
            nonce,
            epoch,
            expiry: _,
        } = self;
        Ok(Held::until(sent_at + t_switch, nonce, epoch))
    }

    /// The lease is given up.
    pub fn give_up(self) -> Idle {
        Idle
    }
}
