//! What an Alarm sent so far.
ghost use Rattle.std.specs.Prelude.{◌≡◌, ◌++◌, ◌∷◌, None, [], length, nat_le, OnOk};

use crate::did::{Begun, Msgs, SwitchDid};
use proto_data::{MESSAGES, Msg};
use rp_base::NoMemory;
use sqlite_items::Items;
use std::alloc::Global;
use std::marker::Model;

/// The messages of an Alarm, and the rounds that it began.
#[derive(Debug, Drop)]
pub(crate) struct Going {
    sent: Msgs,
    begun: Vec<Begun>,
}

impl Model for Going {
    ghost use Rattle.switch_core.specs.Walks.{Going as GoingValue};

    ghost Value = { GoingValue };

    ghost view = { λ g. record { sent = g.sent; begun = g.begun.items } };
}

impl Going {
    /// Nothing went. Takes no memory.
    pub(crate) fn new(alloc: Global) -> Going
        ensures { result ≡ record { sent = []; begun = [] } }
    {
        Going {
            sent: Items::new(alloc),
            begun: Vec::new(alloc),
        }
    }

    /// Whether an Alarm ends here.
    pub(crate) fn is_full(&self) -> bool
        ensures { result ≡ nat_le MESSAGES (length self.now.sent) }
    {
        self.sent.len() >= MESSAGES
    }

    /// A message goes.
    ///
    /// # Errors
    /// `NoMemory`.
    pub(crate) fn send(&mut self, msg: Msg) -> Result<(), NoMemory>
        ensures { OnOk result (self.new ≡ record { sent = self.old.sent ++ msg ∷ []; begun = self.old.begun }) }
    {
        self.sent.push(msg)?;
        Ok(())
    }

    /// A round begins.
    ///
    /// # Errors
    /// `NoMemory`.
    pub(crate) fn begin(&mut self, begun: Begun) -> Result<(), NoMemory>
        ensures { OnOk result (self.new ≡ record { sent = self.old.sent; begun = self.old.begun ++ begun ∷ [] }) }
    {
        self.begun.push(begun)?;
        Ok(())
    }

    /// All that went.
    pub(crate) fn did(self) -> SwitchDid
        ensures { result ≡ record { sent = self.sent; released = None; item = None; dropped = None; begun = self.begun; lost = None } }
    {
        let Going { sent, begun } = self;
        SwitchDid {
            sent,
            released: None,
            item: None,
            dropped: None,
            begun,
            lost: None,
        }
    }
}
