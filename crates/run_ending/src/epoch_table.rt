//! Notes by flow and epoch, each found without a search.
ghost use Rattle.std.specs.Prelude.{◌≡◌, ◌++◌, [], IfOk, OnOk};
ghost use Rattle.std.specs.Option.{option_copied};
ghost use Rattle.run_ending.specs.EpochNotes.{all_marks, closed_marks, kept_in};
ghost use Rattle.run_ending.specs.EpochTable.{find_notes, notes_at, noted_at};

use crate::epoch_notes::{EpochNotes, Note};
use indexmap::IndexMap;
use rp_base::{Key, Marks, NoMemory};
use std::alloc::Global;
use std::marker::Model;

/// An epoch of a flow.
#[derive(Clone, Copy, Debug, PartialEq, Eq, Hash)]
pub struct FlowEpoch {
    pub key: Key,
    pub epoch: u64,
}

/// The notes of every epoch of every flow.
#[derive(Drop)]
pub struct EpochTable {
    rows: IndexMap<FlowEpoch, EpochNotes>,
    alloc: Global,
}

impl Model for EpochTable {
    ghost use Rattle.run_ending.specs.EpochTable.{Epochs};

    ghost Value = { Epochs };

    ghost view = { λ t. t.rows.entries };
}

impl EpochTable {
    /// Nothing is noted. Takes no memory.
    pub fn new(alloc: Global) -> EpochTable
        ensures { result ≡ [] }
    {
        EpochTable {
            rows: IndexMap::new(alloc),
            alloc,
        }
    }

    /// The notes of an epoch, if there are any.
    pub fn get(&self, at: &FlowEpoch) -> Option<&EpochNotes>
        ensures { option_copied result ≡ find_notes self.now at.now }
    {
        self.rows.get(at)
    }

    /// One more note of an epoch.
    ///
    /// # Errors
    /// `NoMemory`.
    pub fn note(&mut self, at: FlowEpoch, note: Note) -> Result<(), NoMemory>
        ensures { OnOk result (self.new ≡ noted_at self.old at note) }
    {
        if let Some(notes) = self.rows.get_mut(&at) {
            notes.add(note)?;
            return Ok(());
        }
        let mut notes = EpochNotes::new(self.alloc);
        notes.add(note)?;
        self.rows.insert(at, notes)?;
        Ok(())
    }

    /// The marks of an epoch's committed packets come behind these, in order of processing.
    ///
    /// # Errors
    /// `NoMemory`.
    pub fn push_closed(&self, at: &FlowEpoch, marks: &mut Marks) -> Result<(), NoMemory>
        ensures { OnOk result (marks.new ≡ marks.old ++ closed_marks (notes_at self.now at.now)) }
    {
        match self.get(at) {
            Some(notes) => notes.push_closed(marks),
            None => Ok(()),
        }
    }

    /// How many packets of an epoch the last committed snapshot has.
    pub fn kept(&self, at: &FlowEpoch) -> u64
        ensures { result ≡ kept_in (notes_at self.now at.now) }
    {
        match self.get(at) {
            Some(notes) => notes.kept(),
            None => 0,
        }
    }

    /// The marks of all packets of an epoch, in order of processing.
    ///
    /// # Errors
    /// `NoMemory`.
    pub fn marks(&self, alloc: Global, at: &FlowEpoch) -> Result<Marks, NoMemory>
        ensures { IfOk result (λ marks. marks ≡ all_marks (notes_at self.now at.now)) }
    {
        match self.get(at) {
            Some(notes) => notes.marks(alloc),
            None => Ok(Marks::new(alloc)),
        }
    }
}
