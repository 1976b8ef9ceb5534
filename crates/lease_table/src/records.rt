//! The record of each flow, in order of first Grant, and how an entry of the book changes it.
ghost use Rattle.std.specs.Prelude.{◌≡◌, ◌==◌, [], true, length, option_map, slice_get, OnOk, OnErr};
ghost use Rattle.std.specs.Map.Iter.{deref_pair};
ghost use Rattle.std.specs.Option.{option_copied};
ghost use Rattle.key_table.specs.Table.{get};
ghost use Rattle.proto_data.specs.declared.message.Entry.{Entry as EntryValue};
ghost use Rattle.proto_model.specs.Records.{delta_within, entry_fits, fits_at, next_epoch, put_applied, snap_applied};
ghost use Rattle.lease_table.specs.Leases.{after_entry};

use key_table::KeyTable;
use proto_model::{Entry, Record};
use rp_app::Delta;
use rp_base::{Cells, Key, NoMemory};
use std::alloc::Global;
use std::marker::Model;

/// The record of each flow that was ever granted, in order of first Grant.
#[derive(Drop)]
pub struct LeaseTable {
    cells: u16,
    rows: KeyTable<Record>,
    alloc: Global,
}

impl Model for LeaseTable {
    ghost use Rattle.lease_table.specs.Leases.{Leases, HaveCells};

    ghost Value = { Leases };

    ghost view = { λ t. record { cell_count = t.cells; records = t.rows } };

    ghost invariant = { λ t. HaveCells t.cells t.rows };
}

impl LeaseTable {
    /// No flow has a record; those to come have `cells` cells. Takes no memory.
    pub fn new(alloc: Global, cells: u16) -> LeaseTable
        ensures { result ≡ record { cell_count = cells; records = [] } }
    {
        LeaseTable {
            cells,
            rows: KeyTable::new(alloc),
            alloc,
        }
    }

    /// How many cells a flow has.
    pub fn cells(&self) -> u16
        ensures { result ≡ self.now.cell_count }
    {
        self.cells
    }

    /// Whether each cell of a delta is one of a flow's.
    pub fn has_cells(&self, delta: &Delta) -> bool
        ensures { result ≡ delta_within self.now.cell_count delta.now }
    {
        let cells = self.cells;
        delta.as_slice().iter().all(|pair| pair.0 < cells)
    }

    /// How many flows have a record.
    pub fn len(&self) -> u64
        ensures { result ≡ length self.now.records }
    {
        self.rows.len() as u64
    }

    /// The record of a flow; `None` exactly where it has none.
    pub fn get(&self, key: &Key) -> Option<&Record>
        ensures value { option_copied result ≡ get self.now.records key.now }
    {
        self.rows.get(key)
    }

    /// The record at a place in order of first Grant, counted from 0, with its key; `None` exactly at or past `len`.
    pub fn at(&self, place: usize) -> Option<(&Key, &Record)>
        ensures { option_map deref_pair result ≡ slice_get self.now.records place }
    {
        self.rows.at(place)
    }

    /// Whether the entry comes next for its flow: a Grant of the next epoch (1 for a flow without a record), or a Put or Snap
    /// of the present epoch with the next number, whose cells are those of a flow.
    pub fn fits(&self, entry: &Entry) -> bool
        ensures { result ≡ entry_fits self.now.cell_count self.now.records entry.now }
    {
        match entry {
            Entry::Grant { key, epoch, .. } => self.is_next_epoch(key, *epoch),
            Entry::Put {
                key,
                epoch,
                number,
                delta,
            } => self.is_next(key, *epoch, *number, self.has_cells(delta)),
            Entry::Snap {
                key,
                epoch,
                round,
                cells,
            } => self.is_next(key, *epoch, *round, cells.len() == self.cells as u64),
        }
    }

    fn is_next_epoch(&self, key: &Key, epoch: u64) -> bool
        ensures { result ≡ (epoch == next_epoch (get self.now.records key.now)) }
    {
        match self.rows.get(key) {
            Some(record) => record.epoch < epoch && epoch - record.epoch == 1,
            None => epoch == 1,
        }
    }

    fn is_next(&self, key: &Key, epoch: u64, number: u64, within: bool) -> bool
        ensures { result ≡ fits_at epoch number within (get self.now.records key.now) }
    {
        match self.rows.get(key) {
            Some(record) => {
                record.epoch == epoch && record.last < number && number - record.last == 1 && within
            }
            None => false,
        }
    }

    /// Applies an entry that comes next for its flow, at the moment `now`.
    ///
    /// A Grant writes down the epoch and its owner, and keeps the cells, which are 0 for a new flow. A Put writes the cells
    /// of its delta, a Snap all cells.
    ///
    /// # Errors
    /// `NoMemory`; nothing changes.
    pub fn apply(&mut self, entry: &Entry, now: u64) -> Result<(), NoMemory>
        requires { entry_fits self.old.cell_count self.old.records entry.now ≡ true }
        ensures ok { OnOk result (self.new ≡ after_entry self.old entry.now now) }
        ensures err { OnErr result (self.new ≡ self.old) }
    {
        match entry {
            Entry::Grant {
                key,
                epoch,
                switch,
                inc,
                nonce,
            } => self.grant(key, *epoch, *switch, *inc, *nonce, now),
            Entry::Put {
                key,
                number,
                delta,
                ..
            } => {
                self.put(key, *number, delta, now);
                Ok(())
            }
            Entry::Snap {
                key,
                round,
                cells,
                ..
            } => self.snap(key, *round, cells, now),
        }
    }

    // The flow is this switch's from now on.
    fn grant(
        &mut self,
        key: &Key,
        epoch: u64,
        switch: u8,
        inc: u64,
        nonce: u64,
        now: u64,
    ) -> Result<(), NoMemory>
        ensures ok { OnOk result (self.new ≡ after_entry self.old (EntryValue.Grant key.now epoch switch inc nonce) now) }
        ensures err { OnErr result (self.new ≡ self.old) }
    {
        match self.rows.get_mut(key) {
            Some(record) => {
                record.epoch = epoch;
                record.switch = switch;
                record.inc = inc;
                record.nonce = nonce;
                record.last = 0;
                record.moment = now;
            }
            None => {
                let record = Record {
                    epoch,
                    switch,
                    inc,
                    nonce,
                    last: 0,
                    cells: Cells::zeros(self.alloc, self.cells)?,
                    moment: now,
                };
                self.rows.put(*key, record)?;
            }
        }
        Ok(())
    }

    // The cells of a delta are written.
    fn put(&mut self, key: &Key, number: u64, delta: &Delta, now: u64)
        requires { delta_within self.old.cell_count delta.now ≡ true }
        ensures { self.new ≡ record self.old { records = put_applied self.old.records key.now number delta.now now (get self.old.records key.now) } }
    {
        let Some(record) = self.rows.get_mut(key) else {
            return;
        };
        delta.write(&mut record.cells);
        record.last = number;
        record.moment = now;
    }

    // All cells are written.
    fn snap(&mut self, key: &Key, round: u64, cells: &Cells, now: u64) -> Result<(), NoMemory>
        requires { length cells.now ≡ self.old.cell_count }
        ensures ok { OnOk result (self.new ≡ record self.old { records = snap_applied self.old.records key.now round cells.now now (get self.old.records key.now) }) }
        ensures err { OnErr result (self.new ≡ self.old) }
    {
        let cells = cells.copy()?;
        let Some(record) = self.rows.get_mut(key) else {
            return Ok(());
        };
        record.cells = cells;
        record.last = round;
        record.moment = now;
        Ok(())
    }
}
