//! What one step of a replica did.
ghost use Rattle.std.specs.Prelude.{◌≡◌, IfOk};

use proto_model::{Entry, Msg};
use rp_base::{Lost, NoMemory};
use sqlite_items::Items;
use std::alloc::Global;
use std::marker::Model;

/// Messages in the order in which they are sent.
pub type Msgs = Items<Msg>;

/// What one step of a replica did.
#[derive(Debug, Drop)]
pub struct StoreDid {
    pub sent: Msgs,
    /// The entry that was applied.
    pub applied: Option<Entry>,
    /// Why the message was lost, if it was.
    pub lost: Option<Lost>,
}

impl Model for StoreDid {
    ghost use Rattle.proto_model.specs.ReplicaState.{StoreDid as Did};

    ghost Value = { Did };

    ghost view = { λ d. record { sent = d.sent; applied = d.applied; lost = d.lost } };
}

impl StoreDid {
    ghost use Rattle.std.specs.Prelude.{[], ◌∷◌, None};
    ghost use Rattle.proto_model.specs.ReplicaState.{store_sent, store_lost};

    /// A message is lost. Takes no memory.
    pub(crate) fn lost(alloc: Global, cause: Lost) -> StoreDid
        ensures { result ≡ store_lost cause }
    {
        StoreDid {
            sent: Items::new(alloc),
            applied: None,
            lost: Some(cause),
        }
    }

    /// Messages are sent.
    pub(crate) fn sent(sent: Msgs) -> StoreDid
        ensures { result ≡ store_sent sent }
    {
        StoreDid {
            sent,
            applied: None,
            lost: None,
        }
    }
}
