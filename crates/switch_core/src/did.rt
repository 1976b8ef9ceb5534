//! What one step of a switch did.
ghost use Rattle.std.specs.Prelude.{◌≡◌, ◌∷◌, [], IfOk};

use proto_data::Msg;
use rp_base::{DropCause, Key, Lost, NoMemory, Output};
use sqlite_items::Items;
use std::alloc::Global;
use std::marker::Model;

/// Messages in the order in which they are sent.
pub type Msgs = Items<Msg>;

/// A packet that was processed.
#[derive(Debug, Drop)]
pub struct Item {
    pub key: Key,
    pub epoch: u64,
    pub mark: u64,
    pub number: u64,
    pub moment: u64,
    pub dirty: bool,
}

impl Model for Item {
    ghost use Rattle.proto_model.specs.SwitchState.{Item as ItemValue};

    ghost Value = { ItemValue };

    ghost view = { λ i. record { key = i.key; epoch = i.epoch; mark = i.mark; number = i.number; moment = i.moment; dirty = i.dirty } };
}

/// A round of snapshots that was begun.
#[derive(Debug, Drop)]
pub struct Begun {
    pub key: Key,
    pub epoch: u64,
    pub round: u64,
}

impl Model for Begun {
    ghost use Rattle.proto_model.specs.SwitchState.{Begun as BegunValue};

    ghost Value = { BegunValue };

    ghost view = { λ b. record { key = b.key; epoch = b.epoch; round = b.round } };
}

/// What one step of a switch did.
#[derive(Debug, Drop)]
pub struct SwitchDid {
    pub sent: Msgs,
    pub released: Option<Output>,
    pub item: Option<Item>,
    /// The mark of a packet that was dropped, and why.
    pub dropped: Option<(u64, DropCause)>,
    pub begun: Vec<Begun>,
    pub lost: Option<Lost>,
}

impl Model for SwitchDid {
    ghost use Rattle.proto_model.specs.SwitchState.{SwitchDid as Did};

    ghost Value = { Did };

    ghost view = { λ d. record { sent = d.sent; released = d.released; item = d.item; dropped = d.dropped; begun = d.begun.items; lost = d.lost } };
}

impl SwitchDid {
    ghost use Rattle.proto_model.specs.SwitchState.{nothing, only_sent, only_released, only_dropped, only_lost};

    /// Nothing is sent, released or dropped. Takes no memory.
    pub(crate) fn nothing(alloc: Global) -> SwitchDid
        ensures { result ≡ nothing }
    {
        SwitchDid {
            sent: Items::new(alloc),
            released: None,
            item: None,
            dropped: None,
            begun: Vec::new(alloc),
            lost: None,
        }
    }

    /// A message is sent.
    ///
    /// # Errors
    /// `NoMemory`.
    pub(crate) fn sent(alloc: Global, msg: Msg) -> Result<SwitchDid, NoMemory>
        ensures { IfOk result (λ did. did ≡ only_sent (msg ∷ [])) }
    {
        let mut did = SwitchDid::nothing(alloc);
        did.sent.push(msg)?;
        Ok(did)
    }

    /// At most an output is released.
    pub(crate) fn released(alloc: Global, out: Option<Output>) -> SwitchDid
        ensures { result ≡ only_released out }
    {
        let mut did = SwitchDid::nothing(alloc);
        did.released = out;
        did
    }

    /// A packet is dropped.
    pub(crate) fn dropped(alloc: Global, mark: u64, cause: DropCause) -> SwitchDid
        ensures { result ≡ only_dropped mark cause }
    {
        let mut did = SwitchDid::nothing(alloc);
        did.dropped = Some((mark, cause));
        did
    }

    /// A message is lost as stale.
    pub(crate) fn stale(alloc: Global) -> SwitchDid
        ensures { result ≡ only_lost Lost.Stale }
    {
        let mut did = SwitchDid::nothing(alloc);
        did.lost = Some(Lost::Stale);
        did
    }
}
