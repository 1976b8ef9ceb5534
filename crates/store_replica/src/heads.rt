//! Which row a switch's request meets at the head.
ghost use Rattle.std.specs.Prelude.{◌≡◌, ◌<◌, ◌^◌, true, None, length, IfOk};
ghost use Rattle.rp_app.specs.Application.{zeros};
ghost use Rattle.proto_data.specs.declared.message.Body.{Body as BodyValue};
ghost use Rattle.proto_model.specs.Slot.{chunk_count, chunk_of};
ghost use Rattle.proto_model.specs.Records.{delta_within};
ghost use Rattle.proto_model.specs.ReplicaRows.{carried_mark, chunk_fits, switch_of};

use crate::part::Part;
use crate::row::Row;
use crate::state::ReplicaState;
use proto_data::RECORDS;
use proto_model::{Body, Carried, Echoed, Entry};
use rp_app::Delta;
use rp_base::{Key, Lost, NoMemory, Node};

// The number of a switch; 0 for any other node.
fn switch_of(node: Node) -> u8
    ensures { result ≡ switch_of node }
{
    match node {
        Node::Switch(n) => n,
        _ => 0,
    }
}

// Another switch has the flow.
fn busy(to: Node, inc: u64, nonce: u64, key: &Key, load: &Option<Carried>) -> Row
    ensures { result ≡ Row.Answers to (BodyValue.Busy inc nonce key.now (carried_mark load.now)) }
{
    let mark = match load {
        Some(carried) => Some(carried.mark),
        None => None,
    };
    let body = Body::Busy {
        inc,
        nonce,
        key: *key,
        mark,
    };
    Row::Answers { to, body }
}

// Another epoch of the flow is the present one.
fn deny(to: Node, inc: u64, epoch: u64, key: &Key) -> Row
    ensures { result ≡ Row.Answers to (BodyValue.Deny inc epoch key.now) }
{
    let body = Body::Deny {
        inc,
        epoch,
        key: *key,
    };
    Row::Answers { to, body }
}

// How many chunks so many cells have.
fn chunk_count(cells: u16) -> usize
    ensures { result ≡ chunk_count cells }
{
    ((cells as usize + 31) / 32).max(1)
}

// How many cells a chunk has.
fn chunk_len(cells: u16, chunk: u8) -> usize
    ensures { result ≡ length (chunk_of chunk (zeros cells)) }
{
    (cells as usize).saturating_sub(32 * chunk as usize).min(32)
}

impl ReplicaState {
    ghost use Rattle.proto_data.specs.declared.message.Echoed.{Echoed as EchoedValue};
    ghost use Rattle.proto_model.specs.ReplicaState.{record_at};
    ghost use Rattle.proto_model.specs.ReplicaRows.{Echoes, ask_row, covered, put_row, snap_row};
    ghost use Rattle.store_replica.specs.Rows.{ComesNext, row_of};
    ghost use Rattle.store_replica.specs.Gatherings.{gathered_with};

    /// Whether a chunk is one of a flow.
    pub(crate) fn has_chunk(&self, part: &Part) -> bool
        ensures { result ≡ chunk_fits self.now.cell_count part.now.chunk part.now.chunks part.now.cells }
    {
        let cells = self.leases.cells();
        part.chunks as usize == chunk_count(cells)
            && part.chunk < part.chunks
            && part.cells.as_slice().len() == chunk_len(cells, part.chunk)
    }

    /// The row of an Ask at the head: the flow is new, the asking switch's own, or another's.
    ///
    /// # Errors
    /// `NoMemory`.
    pub(crate) fn ask_row(
        &self,
        now: u64,
        from: Node,
        inc: u64,
        nonce: u64,
        key: &Key,
        load: &Option<Carried>,
    ) -> Result<Row, NoMemory>
        requires count { self.now.applied < 2 ^ 63 }
        ensures row { IfOk result (λ row. row_of self.now row ≡ covered self.now (ask_row self.now now from inc nonce key.now load.now (record_at self.now key.now))) }
        ensures next { IfOk result (λ row. ComesNext self.now row) }
    {
        let switch = switch_of(from);
        let Some(record) = self.leases.get(key) else {
            if self.leases.len() >= RECORDS as u64 {
                return Ok(busy(from, inc, nonce, key, load));
            }
            let entry = Entry::Grant {
                key: *key,
                epoch: 1,
                switch,
                inc,
                nonce,
            };
            return Row::appends(entry, load);
        };
        let entry = Entry::Grant {
            key: *key,
            epoch: record.epoch + 1,
            switch,
            inc,
            nonce,
        };
        if record.switch != switch {
            if now.saturating_sub(record.moment) >= self.terms.t_store {
                return Row::appends(entry, load);
            }
            return Ok(busy(from, inc, nonce, key, load));
        }
        if inc > record.inc || (inc == record.inc && nonce > record.nonce) {
            return Row::appends(entry, load);
        }
        if inc == record.inc && nonce == record.nonce {
            let of = Echoed::Ask {
                switch,
                inc,
                nonce,
                key: *key,
            };
            return self.echo(of, load);
        }
        Ok(Row::Loses(Lost::Stale))
    }

    /// The row of a Put at the head: the next number of the present epoch, an earlier one, or one too far.
    ///
    /// # Errors
    /// `NoMemory`.
    pub(crate) fn put_row(
        &self,
        from: Node,
        inc: u64,
        epoch: u64,
        number: u64,
        key: &Key,
        delta: &Delta,
        load: &Option<Carried>,
    ) -> Result<Row, NoMemory>
        requires within { delta_within self.now.cell_count delta.now ≡ true }
        ensures row { IfOk result (λ row. row_of self.now row ≡ covered self.now (put_row self.now from inc epoch number key.now delta.now load.now (record_at self.now key.now))) }
        ensures next { IfOk result (λ row. ComesNext self.now row) }
    {
        let Some(record) = self.leases.get(key) else {
            return Ok(deny(from, inc, epoch, key));
        };
        if record.epoch != epoch {
            return Ok(deny(from, inc, epoch, key));
        }
        if number <= record.last {
            return self.echo_put(from, epoch, number, key, load);
        }
        if number - record.last > 1 {
            return Ok(Row::Loses(Lost::Gap));
        }
        let entry = Entry::Put {
            key: *key,
            epoch,
            number,
            delta: delta.copy()?,
        };
        Row::appends(entry, load)
    }

    /// The row of a chunk at the head: it goes by its round as a Put by its number, and one of the next round is gathered.
    ///
    /// # Errors
    /// `NoMemory`.
    pub(crate) fn snap_row(&self, from: Node, inc: u64, part: Part) -> Result<Row, NoMemory>
        requires { chunk_fits self.now.cell_count part.chunk part.chunks part.cells ≡ true }
        ensures row { IfOk result (λ row. row_of self.now row ≡ covered self.now (snap_row self.now from inc part.epoch part.round part.key (gathered_with self.now.gathered part) (record_at self.now part.key))) }
        ensures next { IfOk result (λ row. ComesNext self.now row) }
    {
        let Some(record) = self.leases.get(&part.key) else {
            return Ok(deny(from, inc, part.epoch, &part.key));
        };
        if record.epoch != part.epoch {
            return Ok(deny(from, inc, part.epoch, &part.key));
        }
        if part.round <= record.last {
            return self.echo_put(from, part.epoch, part.round, &part.key, &None);
        }
        if part.round - record.last > 1 {
            return Ok(Row::Loses(Lost::Gap));
        }
        Ok(Row::Gathers(part))
    }

    // An earlier number of the present epoch.
    fn echo_put(
        &self,
        from: Node,
        epoch: u64,
        number: u64,
        key: &Key,
        load: &Option<Carried>,
    ) -> Result<Row, NoMemory>
        ensures row { IfOk result (λ row. row_of self.now row ≡ covered self.now (Echoes (EchoedValue.Put (switch_of from) epoch number key.now) load.now)) }
        ensures next { IfOk result (λ row. ComesNext self.now row) }
    {
        let of = Echoed::Put {
            switch: switch_of(from),
            epoch,
            number,
            key: *key,
        };
        self.echo(of, load)
    }
}
