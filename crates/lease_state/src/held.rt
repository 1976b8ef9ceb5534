//! A lease that was granted.
ghost use Rattle.std.specs.Prelude.{◌≡◌, ◌≤◌, ◌<◌, ◌^◌, ◌+◌, ◌↔◌, max, IfSome, IsNone};
ghost use Rattle.lease_state.specs.Lease.{ended};

use crate::idle::Idle;
use crate::lapsed::Lapsed;
use std::marker::Model;

/// A lease that was granted. It ends at its expiry.
#[derive(Debug, Drop)]
pub struct Held {
    nonce: u64,
    epoch: u64,
    expiry: u64,
}

impl Model for Held {
    ghost use Rattle.lease_state.specs.Lease.{Term};

    ghost Value = { Term };

    ghost view = { λ h. record { nonce = h.nonce; epoch = h.epoch; expiry = h.expiry } };
}

/// A lease that lasts: the right to process a packet at `now`.
#[derive(Debug, Drop)]
pub struct Live<'a> {
    lease: &'a Held,
    now: u64,
}

impl<'a> Model for Live<'a> {
    ghost use Rattle.std.specs.Prelude.{◌<◌};
    ghost use Rattle.lease_state.specs.Lease.{Lasting};

    ghost Value = { Lasting };

    ghost view = { λ l. record { lease = l.lease.now; now = l.now } };

    ghost invariant = { λ l. l.now < l.lease.now.expiry };
}

impl Live<'_> {
    /// The epoch of the lease.
    pub fn epoch(&self) -> u64
        ensures epoch { result ≡ self.entry.now.lease.epoch }
        ensures lasts { self.entry.now.now < self.entry.now.lease.expiry }
    {
        let lease = self.lease;
        lease.epoch()
    }
}

impl Held {
    pub(crate) fn until(expiry: u64, nonce: u64, epoch: u64) -> Held
        ensures { result ≡ record { nonce = nonce; epoch = epoch; expiry = expiry } }
    {
        Held {
            nonce,
            epoch,
            expiry,
        }
    }

    /// The nonce under which the lease was asked for.
    pub fn nonce(&self) -> u64
        ensures { result ≡ self.now.nonce }
    {
        self.nonce
    }

    /// The epoch that was granted.
    pub fn epoch(&self) -> u64
        ensures { result ≡ self.now.epoch }
    {
        self.epoch
    }

    /// The moment from which on the lease is over.
    pub fn expiry(&self) -> u64
        ensures { result ≡ self.now.expiry }
    {
        self.expiry
    }

    /// The lease, while it lasts; `None` exactly where the expiry isn't after `now`.
    pub fn live(&self, now: u64) -> Option<Live<'_>>
        ensures none { IsNone result ↔ (self.now.expiry ≤ now) }
        ensures some { IfSome result (λ live. live ≡ record { lease = self.now; now = now }) }
    {
        if now < self.expiry {
            Some(Live { lease: self, now })
        } else {
            None
        }
    }

    /// The lease lasts one term `t_switch` from `sent_at`, if that is longer. Both are at most 2^62.
    pub fn extend(&mut self, sent_at: u64, t_switch: u64)
        requires moment { sent_at ≤ 2 ^ 62 }
        requires term { t_switch ≤ 2 ^ 62 }
        ensures { self.new ≡ record self.old { expiry = max self.old.expiry (sent_at + t_switch) } }
    {
        self.expiry = self.expiry.max(sent_at + t_switch);
    }

    /// The lease as one that is over.
    ///
    /// # Errors
    /// The lease itself, exactly where it still lasts at `now`.
    pub fn lapse(self, now: u64) -> Result<Lapsed, Held>
        ensures { result ≡ ended now self }
    {
        if self.expiry > now {
            return Err(self);
        }
        let Held {
            nonce,
            epoch,
            expiry,
        } = self;
        Ok(Lapsed::at(expiry, nonce, epoch))
    }

    /// The lease is given up.
    pub fn give_up(self) -> Idle {
        Idle
    }
}
