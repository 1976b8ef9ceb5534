//! The lease of a slot: one of the typed states, none of which can be copied.
ghost use Rattle.std.specs.Prelude.{◌≡◌, ◌≤◌, ◌^◌};
ghost use Rattle.proto_model.specs.Slot.{Asking as AskingValue, Idle as IdleValue, epoch_of, extended, lapsed_lease};
ghost use Rattle.switch_slot.specs.Leases.{lease_of, granted_lease, IsSeenAt, IsYoungAsk};

use lease_state::{Asking, Held, Idle, Lapsed};

/// How a slot stands with the store.
#[derive(Debug, Drop)]
pub enum SlotLease {
    /// No lease, and none is asked for.
    Idle(Idle),
    /// A lease is asked for.
    Asking(Asking),
    /// A lease was granted, and its term isn't over.
    Held(Held),
    /// A lease was granted, and its term is over: an acknowledgement may renew it.
    Lapsed(Lapsed),
}

impl SlotLease {
    /// The lease as it is seen at this moment: one that has ended is Lapsed.
    pub fn lapse(self, now: u64) -> SlotLease
        ensures lease { lease_of result ≡ lapsed_lease now (lease_of self) }
        ensures seen { IsSeenAt now (lease_of result) }
    {
        match self {
            SlotLease::Held(held) => match held.lapse(now) {
                Ok(lapsed) => SlotLease::Lapsed(lapsed),
                Err(held) => SlotLease::Held(held),
            },
            other => other,
        }
    }

    /// The epoch that was granted, if one was.
    pub fn epoch(&self) -> Option<u64>
        ensures { result ≡ epoch_of (lease_of self.now) }
    {
        match self {
            SlotLease::Idle(_) | SlotLease::Asking(_) => None,
            SlotLease::Held(held) => Some(held.epoch()),
            SlotLease::Lapsed(lapsed) => Some(lapsed.epoch()),
        }
    }

    /// The lease after an acknowledgement at `now` of what was first sent at `sent_at`: it is extended, or renewed. Moment and term `t_switch`
    /// are at most 2^62.
    pub fn extend(self, t_switch: u64, now: u64, sent_at: u64) -> SlotLease
        requires term { t_switch ≤ 2 ^ 62 }
        requires moment { sent_at ≤ 2 ^ 62 }
        ensures { lease_of result ≡ extended t_switch now sent_at (lease_of self) }
    {
        match self {
            SlotLease::Held(mut held) => {
                held.extend(sent_at, t_switch);
                SlotLease::Held(held)
            }
            SlotLease::Lapsed(lapsed) => match lapsed.renew(now, sent_at, t_switch) {
                Ok(held) => SlotLease::Held(held),
                Err(lapsed) => SlotLease::Lapsed(lapsed),
            },
            other => other,
        }
    }

    /// A lease is asked for under this nonce, first at `now`, which is at most 2^62. What there was is given up.
    pub fn ask(self, now: u64, nonce: u64) -> SlotLease
        requires { now ≤ 2 ^ 62 }
        ensures { lease_of result ≡ AskingValue nonce now }
    {
        SlotLease::Asking(self.given_up().ask(now, nonce))
    }

    /// The lease that was asked for is granted with this epoch, for one term `t_switch` from the first Ask, which isn't over. The term is at
    /// most 2^62.
    pub fn grant(self, now: u64, t_switch: u64, epoch: u64) -> SlotLease
        requires term { t_switch ≤ 2 ^ 62 }
        requires young { IsYoungAsk now t_switch (lease_of self) }
        ensures lease { lease_of result ≡ granted_lease t_switch epoch (lease_of self) }
        ensures seen { IsSeenAt now (lease_of result) }
    {
        match self {
            SlotLease::Asking(asking) => match asking.grant(now, t_switch, epoch) {
                Ok(held) => SlotLease::Held(held),
                Err((_late, idle)) => SlotLease::Idle(idle),
            },
            other => other,
        }
    }

    /// No lease from now on.
    pub fn give_up(self) -> SlotLease
        ensures { lease_of result ≡ IdleValue }
    {
        SlotLease::Idle(self.given_up())
    }

    fn given_up(self) -> Idle {
        match self {
            SlotLease::Idle(idle) => idle,
            SlotLease::Asking(asking) => asking.give_up(),
            SlotLease::Held(held) => held.give_up(),
            SlotLease::Lapsed(lapsed) => lapsed.give_up(),
        }
    }
}
