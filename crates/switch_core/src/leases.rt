//! What the typed lease of a slot lets a switch do.
ghost use Rattle.std.specs.Prelude.{◌≡◌, ◌<◌, ◌==◌};
ghost use Rattle.proto_model.specs.SwitchRow.{has_epoch};
ghost use Rattle.switch_core.specs.Rows.{asks_by};
ghost use Rattle.switch_slot.specs.Leases.{lease_of};

use lease_state::Held;
use switch_slot::SlotLease;

/// The epoch of a lease that lasts at `now`: the right to process a packet.
pub(crate) fn live_epoch(held: &Held, now: u64) -> u64
    requires { now < held.now.expiry }
    ensures { result ≡ held.now.epoch }
{
    match held.live(now) {
        Some(live) => live.epoch(),
        None => unreachable!(),
    }
}

/// Whether a lease was granted in this epoch.
pub(crate) fn is_of_epoch(lease: &SlotLease, epoch: u64) -> bool
    ensures { result ≡ has_epoch (lease_of lease.now) epoch }
{
    match lease {
        SlotLease::Idle(_) | SlotLease::Asking(_) => false,
        SlotLease::Held(held) => held.epoch() == epoch,
        SlotLease::Lapsed(lapsed) => lapsed.epoch() == epoch,
    }
}

/// Whether a lease is asked for under this nonce.
pub(crate) fn is_asked(lease: &SlotLease, nonce: u64) -> bool
    ensures { result ≡ asks_by nonce (lease_of lease.now) }
{
    match lease {
        SlotLease::Asking(asking) => asking.nonce() == nonce,
        _ => false,
    }
}
