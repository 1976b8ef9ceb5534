//! A slot's cells with the round of snapshots that runs.
ghost use Rattle.std.specs.Prelude.{◌≡◌, ◌<◌, ◌≤◌, ◌^◌, All, None, Some, IfOk, IfSome, is_some, length, replicate, option_map};
ghost use Rattle.rp_app.specs.Application.{cells_named, written};
ghost use Rattle.switch_slot.specs.Rounds.{advanced, after_part, part_of};
ghost use Rattle.proto_model.specs.Slot.{Round};

use arrayvec::ArrayVec;
use lazy_snap::LazySnap;
use proto_data::Chunk;
use rp_app::Delta;
use rp_base::{Cells, NoMemory};
use std::alloc::Global;
use std::marker::Model;

/// One chunk of a round, as it goes to the store.
#[derive(Debug, Drop)]
pub struct Part {
    /// The round's number.
    pub round: u64,
    /// The chunk's place in the round, from 0.
    pub chunk: u8,
    /// How many chunks the round has.
    pub chunks: u8,
    /// The cells of this chunk, in order, as they stood when the round began.
    pub cells: Chunk,
}

/// At most 256 cells, and the round of snapshots that runs, if one does.
#[derive(Debug, Drop)]
pub struct SlotCells {
    snap: LazySnap,
    begun: u64,
    chunk: u8,
}

impl Model for SlotCells {
    ghost use Rattle.switch_slot.specs.Rounds.{CellsAt, IsSlotCells, seen};

    ghost Value = { CellsAt };

    ghost view = { λ s. seen s.snap s.begun s.chunk };

    ghost invariant = { λ s. IsSlotCells (seen s.snap s.begun s.chunk) };
}

impl SlotCells {
    /// So many cells, at most 256, all of them 0, and no round.
    ///
    /// # Errors
    /// `NoMemory`.
    pub fn zeros(alloc: Global, cells: u16) -> Result<SlotCells, NoMemory>
        requires { cells ≤ 256 }
        ensures { IfOk result (λ made. made ≡ record { cells = replicate cells 0; round = None }) }
    {
        Ok(SlotCells {
            snap: LazySnap::new(alloc, cells)?,
            begun: 0,
            chunk: 0,
        })
    }

    /// The cells as they are now.
    pub fn cells(&self) -> &Cells
        ensures value { result.now ≡ self.now.cells }
        ensures few { length self.now.cells ≤ 256 }
    {
        self.snap.cells()
    }

    /// The cells become these, which are as many, and no round runs.
    pub fn fill(&mut self, cells: &Cells)
        requires { length cells.now ≡ length self.old.cells }
        ensures { self.new ≡ record { cells = cells.now; round = None } }
    {
        self.snap.done();
        self.snap.set(cells);
    }

    /// Gives each cell of the delta its value. All of them are there.
    pub fn write(&mut self, delta: &Delta)
        requires { All (λ d. d.0 < length self.old.cells) delta.now }
        ensures { self.new ≡ record self.old { cells = written self.old.cells delta.now } }
    {
        write_into(&mut self.snap, delta.as_slice());
    }

    /// The number of the round that runs, with the moment of its begin, at most 2^62.
    pub fn round(&self) -> Option<(u64, u64)>
        ensures value { result ≡ option_map (λ (r : Round). (r.number, r.begun)) self.now.round }
        ensures early { IfSome result (λ r. r.1 ≤ 2 ^ 62) }
    {
        match self.snap.round() {
            Some(round) => Some((round, self.begun)),
            None => None,
        }
    }

    /// A round of the cells as they are now begins, with this number, at `now`, which is at most 2^62. None runs.
    pub fn begin(&mut self, number: u64, now: u64)
        requires idle { self.old.round ≡ None }
        requires moment { now ≤ 2 ^ 62 }
        ensures { self.new ≡ record self.old { round = Some (record { number = number; begun = now; chunk = 0; cells = self.old.cells }) } }
    {
        let _ = self.snap.begin(number);
        self.begun = now;
        self.chunk = 0;
    }

    /// The next chunk of the round that runs, and after the last one the first; `None` exactly where no round runs.
    pub fn next_part(&mut self) -> Option<Part>
        ensures { (self.new, result) ≡ after_part self.old self.old.round }
    {
        let round = self.snap.round()?;
        let chunks = (self.snap.cells().len().div_ceil(32)).max(1) as u8;
        let mut cells = ArrayVec::new();
        self.snap.chunk(self.chunk, &mut cells);
        let part = Part {
            round,
            chunk: self.chunk,
            chunks,
            cells: as_chunk(cells.as_slice()),
        };
        self.chunk = if self.chunk + 1 < chunks {
            self.chunk + 1
        } else {
            0
        };
        Some(part)
    }

    /// No round runs any more.
    pub fn done(&mut self)
        ensures { self.new ≡ record self.old { round = None } }
    {
        self.snap.done();
    }
}

fn write_into(snap: &mut LazySnap, pairs: &[(u16, u64)])
    requires { All (λ d. d.0 < length snap.old.cells) pairs.now }
    ensures value { snap.new ≡ record snap.old { cells = written snap.old.cells pairs.now } }
    ensures length { length snap.new.cells ≡ length snap.old.cells }
{
    for pair in pairs {
        snap.write(pair.0, pair.1);
    }
}

// The cells of one chunk.
fn as_chunk(cells: &[u64]) -> Chunk
    requires { length cells.now ≤ 32 }
    ensures { result ≡ cells.now }
{
    let mut chunk = Chunk::new();
    for cell in cells {
        chunk.push(*cell);
    }
    chunk
}
