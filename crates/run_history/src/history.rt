//! What happened in a run, each member with the number of its event.
ghost use Rattle.std.specs.Prelude.{◌≡◌, ◌++◌, [], ◌∷◌, length, map, IfOk, OnOk};
ghost use Rattle.proto_model.specs.Effects.{added, made_output, put_output};
ghost use Rattle.run_history.specs.Rounds.{round_begun};

use proto_model::{Body, Msg};
use rp_base::{Fed, NoMemory, Output, Packet, Released};
use std::alloc::Global;
use std::marker::Model;
use switch_core::{Begun, Item};

/// A packet that was processed, with its output.
#[derive(Debug, Drop)]
pub struct Journaled {
    pub event: u64,
    pub item: Item,
    pub output: Option<Output>,
}

impl Model for Journaled {
    ghost use Rattle.proto_model.specs.World.{Journaled as JournaledValue};

    ghost Value = { JournaledValue };

    ghost view = { λ j. record { event = j.event; item = j.item; output = j.output } };
}

/// A round that was begun, with the number of items that were processed before it.
#[derive(Debug, Drop)]
pub struct RoundBegun {
    pub event: u64,
    pub begun: Begun,
    pub items_before: u64,
}

impl Model for RoundBegun {
    ghost use Rattle.proto_model.specs.World.{RoundBegun as RoundValue};

    ghost Value = { RoundValue };

    ghost view = { λ r. record { event = r.event; begun = r.begun; items_before = r.items_before } };
}

/// The output that the Put of a message carries.
fn put_output(body: &Body) -> Result<Option<Output>, NoMemory>
    ensures { IfOk result (λ out. out ≡ put_output body.now) }
{
    match body {
        Body::Put {
            load: Some(carried),
            ..
        } => Ok(Some(Output {
            mark: carried.mark,
            port: carried.port,
            bytes: carried.bytes.copy()?,
        })),
        _ => Ok(None),
    }
}

/// The output of a processed packet: what was released at once, or put into its Put.
fn made_output(released: &Option<Output>, sent: &[Msg]) -> Result<Option<Output>, NoMemory>
    ensures { IfOk result (λ out. out ≡ made_output released.now sent.now) }
{
    match released {
        Some(output) => Ok(Some(output.copy()?)),
        None => match sent {
            [first, ..] => put_output(&first.body),
            [] => Ok(None),
        },
    }
}

/// What happened in a run.
#[derive(Drop)]
pub struct History {
    fed: Vec<Fed>,
    released: Vec<Released>,
    items: Vec<Journaled>,
    rounds: Vec<RoundBegun>,
}

impl Model for History {
    ghost use Rattle.proto_model.specs.World.{History as HistoryValue};

    ghost Value = { HistoryValue };

    ghost view = { λ h. record { fed = h.fed.items; released = h.released.items; items = h.items.items; rounds = h.rounds.items } };
}

impl History {
    /// Nothing happened. Takes no memory.
    pub fn new(alloc: Global) -> History
        ensures { result ≡ record { fed = []; released = []; items = []; rounds = [] } }
    {
        History {
            fed: Vec::new(alloc),
            released: Vec::new(alloc),
            items: Vec::new(alloc),
            rounds: Vec::new(alloc),
        }
    }

    /// The packets that were processed, in order.
    pub fn items(&self) -> &[Journaled]
        ensures { result.now ≡ self.now.items }
    {
        &self.items
    }

    /// The rounds that were begun, in order.
    pub fn rounds(&self) -> &[RoundBegun]
        ensures { result.now ≡ self.now.rounds }
    {
        &self.rounds
    }

    /// A packet was fed.
    ///
    /// # Errors
    /// `NoMemory`.
    pub fn push_fed(&mut self, event: u64, packet: Packet) -> Result<(), NoMemory>
        ensures { OnOk result (self.new ≡ record self.old { fed = self.old.fed ++ record { event = event; packet = packet } ∷ [] }) }
    {
        self.fed.push(Fed { event, packet })?;
        Ok(())
    }

    /// Rounds were begun; so many packets had been processed before.
    ///
    /// # Errors
    /// `NoMemory`.
    pub fn push_rounds(&mut self, event: u64, begun: &[Begun]) -> Result<(), NoMemory>
        ensures { OnOk result (self.new ≡ record self.old { rounds = self.old.rounds ++ map (round_begun event (length self.old.items)) begun.now }) }
    {
        let before = self.items.len() as u64;
        push_rounds(&mut self.rounds, event, before, begun)
    }

    /// A packet was processed, in a step that released and sent this.
    ///
    /// # Errors
    /// `NoMemory`.
    pub fn push_item(
        &mut self,
        event: u64,
        item: Option<Item>,
        released: &Option<Output>,
        sent: &[Msg],
    ) -> Result<(), NoMemory>
        ensures { OnOk result (self.new ≡ record self.old { items = self.old.items ++ added (λ i. record { event = event; item = i; output = made_output released.now sent.now }) item }) }
    {
        match item {
            Some(item) => {
                let output = made_output(released, sent)?;
                self.items.push(Journaled {
                    event,
                    item,
                    output,
                })?;
                Ok(())
            }
            None => Ok(()),
        }
    }

    /// An output left.
    ///
    /// # Errors
    /// `NoMemory`.
    pub fn push_released(&mut self, event: u64, released: Option<Output>) -> Result<(), NoMemory>
        ensures { OnOk result (self.new ≡ record self.old { released = self.old.released ++ added (λ o. record { event = event; output = o }) released }) }
    {
        match released {
            Some(output) => {
                self.released.push(Released { event, output })?;
                Ok(())
            }
            None => Ok(()),
        }
    }
}

// Rounds come last, each with the number of the event and of the packets that were processed before.
fn push_rounds(
    rounds: &mut Vec<RoundBegun>,
    event: u64,
    items_before: u64,
    begun: &[Begun],
) -> Result<(), NoMemory>
    ensures { OnOk result (rounds.new.items ≡ rounds.old.items ++ map (round_begun event items_before) begun.now) }
{
    for b in begun {
        rounds.push(RoundBegun {
            event,
            begun: Begun {
                key: b.key,
                epoch: b.epoch,
                round: b.round,
            },
            items_before,
        })?;
    }
    Ok(())
}
