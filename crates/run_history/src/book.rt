//! The entries that a replica applied, in order, each with its moment and its event.
ghost use Rattle.std.specs.Prelude.{◌≡◌, ◌++◌, [], OnOk};
ghost use Rattle.proto_model.specs.Effects.{added};

use proto_model::Entry;
use rp_base::NoMemory;
use std::alloc::Global;
use std::marker::Model;

/// An entry that a replica applied, with its clock and the number of the event.
#[derive(Debug, Drop)]
pub struct Booked {
    pub entry: Entry,
    pub moment: u64,
    pub event: u64,
}

impl Model for Booked {
    ghost use Rattle.proto_model.specs.Records.{Booked as BookedValue};

    ghost Value = { BookedValue };

    ghost view = { λ b. record { entry = b.entry; moment = b.moment; event = b.event } };
}

/// The entries that a replica applied, in order.
#[derive(Debug, Drop)]
pub struct Book {
    items: Vec<Booked>,
}

impl Model for Book {
    ghost use Rattle.std.specs.Prelude.{List};
    ghost use Rattle.proto_model.specs.Records.{Booked as BookedValue};

    ghost Value = { List BookedValue };

    ghost view = { λ b. b.items.items };
}

impl Book {
    /// No entries. Takes no memory.
    pub fn new(alloc: Global) -> Book
        ensures { result ≡ [] }
    {
        Book {
            items: Vec::new(alloc),
        }
    }

    /// The entries, in order.
    pub fn as_slice(&self) -> &[Booked]
        ensures { result.now ≡ self.now }
    {
        &self.items
    }

    /// An entry that was applied at a moment, if one was, comes last.
    ///
    /// # Errors
    /// `NoMemory`.
    pub fn push(&mut self, event: u64, moment: u64, applied: Option<Entry>) -> Result<(), NoMemory>
        ensures { OnOk result (self.new ≡ self.old ++ added (λ e. record { entry = e; moment = moment; event = event }) applied) }
    {
        match applied {
            Some(entry) => {
                self.items.push(Booked {
                    entry,
                    moment,
                    event,
                })?;
                Ok(())
            }
            None => Ok(()),
        }
    }
}
