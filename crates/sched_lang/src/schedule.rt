//! A schedule, and why a text is none.
ghost use Rattle.std.specs.Prelude.{◌≡◌, ◌≤◌, ◌↔◌, [], ◌∷◌, ◌++◌, length, slice_get, OnOk, OnErr, IsNone};
ghost use Rattle.std.specs.Option.{option_copied};

use rp_base::{Event, NoMemory};
use std::alloc::Global;
use std::marker::Model;

/// A list of events, in the order in which they come.
#[derive(Debug, Drop)]
pub struct Events {
    items: Vec<Event>,
}

impl Model for Events {
    ghost use Rattle.std.specs.Prelude.{List};
    ghost use Rattle.rp_base.specs.declared.event.Event.{Event as EventValue};

    ghost Value = { List EventValue };

    ghost view = { λ b. b.items.items };
}

impl Events {
    /// No events. Takes no memory.
    pub fn new(alloc: Global) -> Events
        ensures { result ≡ [] }
    {
        Events {
            items: Vec::new(alloc),
        }
    }

    /// Appends an event.
    ///
    /// # Errors
    /// `NoMemory`; the list is unchanged.
    pub fn push(&mut self, event: Event) -> Result<(), NoMemory>
        ensures ok { OnOk result (self.new ≡ self.old ++ event ∷ []) }
        ensures err { OnErr result (self.new ≡ self.old) }
    {
        self.items.push(event)?;
        Ok(())
    }

    /// How many events.
    pub fn len(&self) -> u64
        ensures { result ≡ length self.now }
    {
        self.items.len() as u64
    }

    /// The event at place `i`, counted from 0; `None` exactly at or past the length.
    pub fn at(&self, i: u64) -> Option<&Event>
        ensures value { option_copied result ≡ slice_get self.now i }
        ensures none { IsNone result ↔ (length self.now ≤ i) }
    {
        self.items.get(i as usize)
    }

    /// The events.
    pub fn as_slice(&self) -> &[Event]
        ensures { result.now ≡ self.now }
    {
        &self.items
    }
}

/// What a run is given: its nodes, the terms of its leases, and its events.
#[derive(Debug, Drop)]
pub struct Schedule {
    /// 1 to 8.
    pub switches: u8,
    /// How many replicas the store has: 1 to 5.
    pub chain: u8,
    /// How long a lease lasts on the clock of a switch: 1 to 1,000,000.
    pub t_switch: u64,
    /// How long the store waits before it gives a flow to another switch: 1 to 1,000,000.
    pub t_store: u64,
    /// How far clocks may differ, in thousandths: 0 to 1,000.
    pub ratio: u64,
    /// The bound of snapshot mode, 1 to 1,000,000; `None` in strict mode.
    pub snapshot: Option<u64>,
    /// At most 20,000.
    pub events: Events,
}

/// Why a schedule is refused.
#[derive(Clone, Copy, Debug, PartialEq, Eq)]
pub enum SchedWhy {
    /// The text has more than 4,194,304 bytes.
    TooLong,
    /// The line would be event 20,001.
    Many,
    /// The line has no form of its place.
    Form,
    /// A number or a packet is out of its range.
    Number,
    /// A node isn't in this run.
    Node,
    /// The terms of the leases don't hold within the ratio.
    Terms,
    /// In strict mode the program has more than 32 cells.
    Cells,
    /// This command takes no schedule in snapshot mode.
    Mode,
    /// The line is right, and what it asks for isn't built.
    NotYet,
}

/// Why there is no schedule.
#[derive(Clone, Copy, Debug, PartialEq, Eq)]
pub enum SchedEnd {
    /// The first line that fails, from 1, and its cause. The whole text has line 0.
    Refused { line: u64, why: SchedWhy },
    /// Memory ran out.
    NoMemory,
}

impl From<NoMemory> for SchedEnd {
    ghost use Rattle.std.specs.Prelude.{◌≡◌};
    ghost use Rattle.sched_lang.specs.declared.schedule.SchedEnd.TheVariants.{NoMemory as NoRoom};

    ghost from_gives = { λ _ e. e ≡ NoRoom };

    fn from(_e: NoMemory) -> SchedEnd {
        SchedEnd::NoMemory
    }
}
