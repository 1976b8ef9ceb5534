//! How old the updates are that no done round of snapshots has.
ghost use Rattle.std.specs.Prelude.{◌≡◌, Option, is_some};
ghost use Rattle.proto_model.specs.Slot.{Round, acknowledged, may, no_ages, updated};

use std::marker::Model;

/// The moments of the oldest update that no done round has: before the running round's begin, and after it.
#[derive(Debug, Drop)]
pub struct Ages {
    pre: Option<u64>,
    post: Option<u64>,
}

impl Model for Ages {
    ghost use Rattle.proto_model.specs.Slot.{Ages as AgesValue};

    ghost Value = { AgesValue };

    ghost view = { λ a. record { pre = a.pre; post = a.post } };
}

impl Ages {
    /// No update.
    pub fn new() -> Ages
        ensures { result ≡ no_ages }
    {
        Ages {
            pre: None,
            post: None,
        }
    }

    /// Whether an update before the running round is missing from the last done one.
    pub fn is_late(&self) -> bool
        ensures { result ≡ is_some self.now.pre }
    {
        self.pre.is_some()
    }

    /// Whether what is missing from the last done round is younger than the bound at `now`.
    pub fn may(&self, now: u64, bound: u64) -> bool
        ensures { result ≡ may bound now self.now }
    {
        match self.pre.or(self.post) {
            Some(moment) => now.saturating_sub(moment) < bound,
            None => true,
        }
    }

    /// An update at `now`, while a round runs or not.
    pub fn wrote(&mut self, now: u64, running: bool)
        ensures { (round : Option Round) → running ≡ is_some round → self.new ≡ updated now round self.old }
    {
        if running {
            self.post = self.post.or(Some(now));
        } else {
            self.pre = self.pre.or(Some(now));
        }
    }

    /// The running round is done.
    pub fn acked(&mut self)
        ensures { self.new ≡ acknowledged self.old }
    {
        self.pre = self.post;
        self.post = None;
    }
}
