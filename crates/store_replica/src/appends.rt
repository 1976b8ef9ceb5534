//! An entry is appended to the book that the chain shares.
ghost use Rattle.std.specs.Prelude.{ℕ, List, ◌≡◌, ◌<◌, ◌^◌, [], ◌∷◌, Some, None, true, false, length, IfOk};
ghost use Rattle.proto_data.specs.declared.limits.TheConstants.{PENDING};

use crate::copies::copy_entry;
use crate::did::{Msgs, StoreDid};
use crate::state::ReplicaState;
use proto_data::PENDING;
use proto_model::{Body, Carried, Entry};
use rp_base::{Key, Lost, NoMemory, Node};
use sqlite_items::Items;

impl ReplicaState {
    ghost use Rattle.proto_data.specs.declared.message.Entry.{Entry as EntryValue};
    ghost use Rattle.rp_app.specs.Application.{Delta};
    ghost use Rattle.proto_model.specs.Records.{entry_fits};
    ghost use Rattle.proto_model.specs.ReplicaState.{record_at};
    ghost use Rattle.proto_model.specs.ReplicaRows.{appended, entry_key, inner_appended, owner_answer, tail_appended, with_entry};

    /// An entry is appended, unless the replica is outside its configuration or has no room for one more that is pending.
    ///
    /// # Errors
    /// `NoMemory`; then nothing is said of the replica.
    pub(crate) fn append(
        &mut self,
        now: u64,
        entry: Entry,
        load: Option<Carried>,
    ) -> Result<StoreDid, NoMemory>
        requires next { entry_fits self.old.cell_count self.old.records entry ≡ true }
        requires count { self.old.applied < 2 ^ 63 }
        ensures { IfOk result (λ did. (self.new, did) ≡ appended self.old now entry load) }
    {
        if !self.is_member() {
            return Ok(StoreDid::lost(self.alloc, Lost::Role));
        }
        let is_tail = self.is_tail();
        if !is_tail && self.pending.len() >= PENDING {
            return Ok(StoreDid::lost(self.alloc, Lost::Pending));
        }
        let sent = if is_tail {
            self.append_at_tail(now, &entry, load)?
        } else {
            self.append_inside(now, &entry, load)?
        };
        Ok(StoreDid {
            sent,
            applied: Some(entry),
            lost: None,
        })
    }

    // At the tail an entry is committed: its owner is told, and the predecessor.
    fn append_at_tail(
        &mut self,
        now: u64,
        entry: &Entry,
        load: Option<Carried>,
    ) -> Result<Msgs, NoMemory>
        requires next { entry_fits self.old.cell_count self.old.records entry.now ≡ true }
        requires count { self.old.applied < 2 ^ 63 }
        ensures { IfOk result (λ sent. (self.new, record { sent = sent; applied = Some entry.now; lost = None }) ≡ tail_appended (with_entry self.old entry.now now) entry.now load) }
    {
        self.enter(entry, now)?;
        self.known = self.applied;
        let mut sent = self.owner_answer(entry, load)?;
        let body = Body::Have {
            index: self.applied,
        };
        self.tell_predecessor(body, &mut sent)?;
        Ok(sent)
    }

    // What the owner of an entry is told.
    fn owner_answer(&self, entry: &Entry, load: Option<Carried>) -> Result<Msgs, NoMemory>
        ensures { IfOk result (λ sent. sent ≡ owner_answer self.now entry.now load (record_at self.now (entry_key entry.now))) }
    {
        match entry {
            Entry::Grant {
                key,
                epoch,
                switch,
                inc,
                nonce,
            } => self.told_of_grant(key, *epoch, *switch, *inc, *nonce, load),
            Entry::Put {
                key,
                epoch,
                number,
                ..
            } => self.told_of_number(key, *epoch, *number, load),
            Entry::Snap {
                key,
                epoch,
                round,
                ..
            } => self.told_of_number(key, *epoch, *round, load),
        }
    }

    // The owner of a Grant is told of the cells.
    fn told_of_grant(
        &self,
        key: &Key,
        epoch: u64,
        switch: u8,
        inc: u64,
        nonce: u64,
        load: Option<Carried>,
    ) -> Result<Msgs, NoMemory>
        ensures { IfOk result (λ sent. sent ≡ owner_answer self.now (EntryValue.Grant key.now epoch switch inc nonce) load (record_at self.now key.now)) }
    {
        let mut sent = Items::new(self.alloc);
        let Some(record) = self.leases.get(key) else {
            return Ok(sent);
        };
        let body = Body::Grant {
            inc,
            nonce,
            epoch,
            key: *key,
            cells: record.cells.copy()?,
            load,
        };
        sent.push(self.message(Node::Switch(switch), body))?;
        Ok(sent)
    }

    // The owner of a flow is told that its Put or round is committed.
    fn told_of_number(
        &self,
        key: &Key,
        epoch: u64,
        number: u64,
        load: Option<Carried>,
    ) -> Result<Msgs, NoMemory>
        ensures put { IfOk result (λ sent. (delta : Delta) → sent ≡ owner_answer self.now (EntryValue.Put key.now epoch number delta) load (record_at self.now key.now)) }
        ensures snap { IfOk result (λ sent. (cells : List ℕ) → sent ≡ owner_answer self.now (EntryValue.Snap key.now epoch number cells) load (record_at self.now key.now)) }
    {
        let mut sent = Items::new(self.alloc);
        let Some(record) = self.leases.get(key) else {
            return Ok(sent);
        };
        let body = Body::Ack {
            inc: record.inc,
            epoch,
            upto: number,
            key: *key,
            load,
        };
        sent.push(self.message(Node::Switch(record.switch), body))?;
        Ok(sent)
    }

    // Elsewhere an entry is pending, and goes on to the successor.
    fn append_inside(
        &mut self,
        now: u64,
        entry: &Entry,
        load: Option<Carried>,
    ) -> Result<Msgs, NoMemory>
        requires next { entry_fits self.old.cell_count self.old.records entry.now ≡ true }
        requires count { self.old.applied < 2 ^ 63 }
        requires room { length self.old.pending < PENDING }
        ensures { IfOk result (λ sent. (self.new, record { sent = sent; applied = Some entry.now; lost = None }) ≡ inner_appended (with_entry self.old entry.now now) entry.now load) }
    {
        self.enter(entry, now)?;
        self.pending.push_back(copy_entry(entry)?);
        let body = Body::Forward {
            config: self.config.number,
            index: self.applied,
            entry: copy_entry(entry)?,
            load,
        };
        let mut sent = Items::new(self.alloc);
        self.tell_successor(body, &mut sent)?;
        Ok(sent)
    }
}
