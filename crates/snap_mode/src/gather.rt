//! The chunks that came of one round of a flow, each at its place, until all are there.
ghost use Rattle.std.specs.Prelude.{◌≡◌, ◌<◌, ◌≤◌, ◌+◌, ◌*◌, ◌++◌, None, length, replicate, is_some, map, IfOk};
ghost use Rattle.std.specs.List.{concat, list_all};
ghost use Rattle.proto_model.specs.Slot.{chunk_count};
ghost use Rattle.proto_model.specs.ReplicaState.{no_parts, part_cells, whole_cells};
ghost use Rattle.snap_mode.specs.Rounds.{after_part, told};

use crate::round_cells::RoundCells;
use proto_data::Chunk;
use rp_base::NoMemory;
use std::alloc::Global;
use std::marker::Model;

/// A chunk of a round, as it comes to the store.
#[derive(Debug, Drop)]
pub struct SnapPart {
    /// The epoch of the lease under which the round runs.
    pub epoch: u64,
    /// The round's number within its epoch.
    pub round: u64,
    /// The place of the chunk, counted from 0.
    pub chunk: u8,
    /// How many chunks the round has.
    pub chunks: u8,
    /// The cells of this chunk, in order.
    pub cells: Chunk,
}

/// What a chunk makes of its round.
#[derive(Debug, Drop)]
pub enum Gathered {
    /// Another chunk is missing.
    More,
    /// Each chunk is there: the cells of the round, in order.
    Whole(RoundCells),
}

/// The chunks that came of one round. Its room is used again for the next round.
#[derive(Drop)]
pub struct Gather {
    epoch: u64,
    round: u64,
    parts: Vec<Option<Chunk>>,
}

impl Model for Gather {
    ghost use Rattle.std.specs.Prelude.{◌≤◌, length};
    ghost use Rattle.proto_model.specs.ReplicaState.{Gathered as GatheredValue};

    ghost Value = { GatheredValue };

    ghost view = { λ g. record { epoch = g.epoch; round = g.round; parts = g.parts.items } };

    ghost invariant = { λ g. length g.parts.items ≤ 8 };
}

// How many chunks so many cells have.
fn chunk_count(cells: u16) -> usize
    ensures { result ≡ chunk_count cells }
{
    ((cells as usize + 31) / 32).max(1)
}

// Nothing came of any chunk.
fn empty(parts: &mut [Option<Chunk>])
    ensures { parts.new ≡ replicate (length parts.old) None }
{
    for i in 0..parts.len() {
        parts[i] = None;
    }
}

// An equal chunk. Takes no memory.
fn same(chunk: &Chunk) -> Chunk
    ensures { result ≡ chunk.now }
{
    let mut same = Chunk::new();
    let cells = chunk.as_slice();
    for cell in cells {
        same.push(*cell);
    }
    same
}

// Appends the cells of each chunk.
fn pour(parts: &[Option<Chunk>], into: &mut RoundCells)
    requires { length into.old + 32 * length parts.now ≤ 256 }
    ensures { into.new ≡ into.old ++ concat (map part_cells parts.now) }
{
    match parts {
        [] => {}
        [first, rest @ ..] => {
            pour_one(first, into);
            pour(rest, into);
        }
    }
}

// Appends the cells of a chunk, if it is there.
fn pour_one(part: &Option<Chunk>, into: &mut RoundCells)
    requires { length into.old + 32 ≤ 256 }
    ensures all { into.new ≡ into.old ++ part_cells part.now }
    ensures few { length into.new ≤ length into.old + 32 }
{
    match part {
        Some(chunk) => pour_cells(chunk.as_slice(), into),
        None => {}
    }
}

// Appends cells.
fn pour_cells(cells: &[u64], into: &mut RoundCells)
    requires { length into.old + length cells.now ≤ 256 }
    ensures all { into.new ≡ into.old ++ cells.now }
    ensures long { length into.new ≡ length into.old + length cells.now }
{
    for cell in cells {
        into.push(*cell);
    }
}

// Whether each chunk is there.
fn all_there(parts: &[Option<Chunk>]) -> bool
    ensures { result ≡ list_all (λ p. is_some p) parts.now }
{
    parts.iter().all(|part| part.is_some())
}

impl Gather {
    /// Nothing came yet of a flow with so many cells, at most 256.
    ///
    /// # Errors
    /// `NoMemory`.
    pub fn new(alloc: Global, cells: u16) -> Result<Gather, NoMemory>
        requires { cells ≤ 256 }
        ensures { IfOk result (λ made. made ≡ no_parts 0 0 (chunk_count cells)) }
    {
        let chunks = chunk_count(cells);
        let mut parts = Vec::with_capacity(alloc, chunks)?;
        for _chunk in 0..chunks {
            parts.push(None)?;
        }
        Ok(Gather {
            epoch: 0,
            round: 0,
            parts,
        })
    }

    /// Keeps a chunk; what came of another epoch or round is gone. Takes no memory.
    ///
    /// Its round has as many chunks as a flow, and its place is below that number.
    pub fn take(&mut self, part: &SnapPart) -> Gathered
        requires place { part.now.chunk < part.now.chunks }
        requires count { length self.old.parts ≡ part.now.chunks }
        ensures kept { self.new ≡ after_part self.old part.now }
        ensures room { length self.new.parts ≡ length self.old.parts }
        ensures whole { result ≡ told (whole_cells self.new) }
    {
        if self.epoch != part.epoch || self.round != part.round {
            empty(&mut self.parts);
            self.epoch = part.epoch;
            self.round = part.round;
        }
        self.parts[part.chunk as usize] = Some(same(&part.cells));
        self.whole()
    }

    // The cells of the round, once each chunk is there.
    fn whole(&self) -> Gathered
        ensures { result ≡ told (whole_cells self.now) }
    {
        if !all_there(&self.parts) {
            return Gathered::More;
        }
        let mut cells = RoundCells::new();
        pour(&self.parts, &mut cells);
        Gathered::Whole(cells)
    }
}
