//! What the rules of legality look at: what was fed, what was released, and what each flow came to.

use crate::key::Key;
use crate::node::{Output, Packet};
use crate::numbers::{Cells, Marks};
use sqlite_items::Items;

/// A packet with the number of the event that fed it, which is its mark.
#[derive(Debug, Drop)]
pub struct Fed {
    pub event: u64,
    pub packet: Packet,
}

/// What was fed, in the order of events.
pub type Feeds = Items<Fed>;

/// An output with the number of the event at which it left a switch.
#[derive(Debug, Drop)]
pub struct Released {
    pub event: u64,
    pub output: Output,
}

/// What was released, in the order of events.
pub type Releases = Items<Released>;

/// What a flow came to: the marks of its serial list, and its committed cells.
#[derive(Debug, Drop)]
pub struct Flow {
    pub key: Key,
    pub marks: Marks,
    pub cells: Cells,
}

/// The flows of a run, in order of first Grant.
pub type Flows = Items<Flow>;
