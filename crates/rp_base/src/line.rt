//! The lines of a report.
ghost use Rattle.std.specs.Prelude.{◌≡◌, ◌≤◌, ◌↔◌, [], ◌∷◌, ◌++◌, length, slice_get, OnOk, OnErr, IsNone};
ghost use Rattle.std.specs.Option.{option_copied};

use crate::bytes::Bytes;
use crate::error::NoMemory;
use crate::event::{DropCause, Lost, Refusal};
use crate::key::Key;
use crate::node::Node;
use crate::numbers::{Cells, Marks};
use std::alloc::Global;
use std::marker::Model;

/// A line of a report. `event` is the number of the event at which it came.
#[derive(Debug, Drop)]
pub enum Line {
    /// An output leaves a switch.
    Release {
        event: u64,
        mark: u64,
        port: u16,
        bytes: Bytes,
    },
    /// A packet is dropped.
    Drop {
        event: u64,
        mark: u64,
        cause: DropCause,
    },
    /// A message is lost.
    Lost {
        event: u64,
        cause: Lost,
    },
    /// The event is refused.
    Refused {
        event: u64,
        cause: Refusal,
    },
    /// A datagram is no frame that was sent to this node.
    Stranger {
        event: u64,
        node: Node,
    },
    /// A frame is sent. `kind` is the byte of its kind.
    Send {
        event: u64,
        frame: u64,
        from: Node,
        to: Node,
        kind: u8,
        bytes: Bytes,
    },
    /// The serial list of a flow.
    Serial {
        key: Key,
        marks: Marks,
    },
    /// The packets of an epoch of a flow, and how many of them the last snapshot has.
    Epoch {
        key: Key,
        epoch: u64,
        kept: u64,
        marks: Marks,
    },
    /// The committed cells of a flow.
    Cells {
        key: Key,
        cells: Cells,
    },
    /// The report is whole.
    End,
}

/// A list of lines.
#[derive(Debug, Drop)]
pub struct Lines {
    items: Vec<Line>,
}

impl Model for Lines {
    ghost use Rattle.std.specs.Prelude.{List};
    ghost use Rattle.rp_base.specs.declared.line.Line.{Line as LineValue};

    ghost Value = { List LineValue };

    ghost view = { λ b. b.items.items };
}

impl Lines {
    /// No lines. Takes no memory.
    pub fn new(alloc: Global) -> Lines
        ensures { result ≡ [] }
    {
        Lines {
            items: Vec::new(alloc),
        }
    }

    /// Appends a line.
    ///
    /// # Errors
    /// `NoMemory`; the list is unchanged.
    pub fn push(&mut self, line: Line) -> Result<(), NoMemory>
        ensures ok { OnOk result (self.new ≡ self.old ++ line ∷ []) }
        ensures err { OnErr result (self.new ≡ self.old) }
    {
        self.items.push(line)?;
        Ok(())
    }

    /// How many lines.
    pub fn len(&self) -> u64
        ensures { result ≡ length self.now }
    {
        self.items.len() as u64
    }

    /// The line at place `i`, counted from 0; `None` exactly at or past the length.
    pub fn at(&self, i: u64) -> Option<&Line>
        ensures value { option_copied result ≡ slice_get self.now i }
        ensures none { IsNone result ↔ (length self.now ≤ i) }
    {
        self.items.get(i as usize)
    }

    /// The lines.
    pub fn as_slice(&self) -> &[Line]
        ensures { result.now ≡ self.now }
    {
        &self.items
    }
}
