//! The cells, beside them what each was at the last begin where it was written since.
ghost use Rattle.std.specs.Prelude.{◌≡◌, ◌<◌, ◌≤◌, ◌*◌, [], All, Some, None, IsOk, IsSome, IfOk, IfErr, OnOk, length, replicate, slice_index, slice_set, ◌↔◌};
ghost use Rattle.lazy_snap.specs.Snap.{base, chunk_count, chunk_of};
ghost use Rattle.lazy_snap.specs.Picking.{keep_at};

use crate::kept::Kept;
use arrayvec::ArrayVec;
use rp_base::{Cells, NoMemory};
use std::alloc::Global;
use std::marker::Model;

/// A round isn't done.
#[derive(Clone, Copy, Debug, PartialEq, Eq)]
pub struct Running {
    pub round: u64,
}

/// At most 256 cells, and the round of snapshots that runs, if one does. Memory is taken when it is made and never again.
///
/// A begin takes no time that grows with the cells: each cell's value is kept when it is first written after it.
#[derive(Debug, Drop)]
pub struct LazySnap {
    cells: Cells,
    kept: Vec<Kept>,
    turn: u64,
    round: Option<u64>,
}

impl Model for LazySnap {
    ghost use Rattle.lazy_snap.specs.Snap.{Snap};
    ghost use Rattle.lazy_snap.specs.Picking.{seen, IsSnap};

    ghost Value = { Snap };

    ghost view = { λ s. seen s.cells s.kept.items s.turn s.round };

    ghost invariant = { λ s. IsSnap s.cells s.kept.items s.turn };
}

impl LazySnap {
    ghost use Rattle.lazy_snap.specs.Snap.{round_of};

    /// So many cells, all of them 0, and no round. There are at most 256.
    ///
    /// # Errors
    /// `NoMemory`.
    pub fn new(alloc: Global, cells: u16) -> Result<LazySnap, NoMemory>
        requires { cells ≤ 256 }
        ensures { IfOk result (λ made. made ≡ record { cells = replicate cells 0; round = None }) }
    {
        Ok(LazySnap {
            cells: Cells::zeros(alloc, cells)?,
            kept: vec![in alloc; Kept::NONE; cells as usize]?,
            turn: 0,
            round: None,
        })
    }

    /// The cells become these, which are as many. No round runs.
    pub fn set(&mut self, c: &Cells)
        requires length { length c.now ≡ length self.old.cells }
        requires round { self.old.round ≡ None }
        ensures { self.new ≡ record self.old { cells = c.now } }
    {
        pour(&mut self.cells, c.as_slice());
    }

    /// The cells as they are now.
    pub fn cells(&self) -> &Cells
        ensures value { result.now ≡ self.now.cells }
        ensures few { length self.now.cells ≤ 256 }
    {
        &self.cells
    }

    /// The round that runs, if one does.
    pub fn round(&self) -> Option<u64>
        ensures { result ≡ round_of self.now }
    {
        self.round
    }

    /// Begins a round: its chunks are the cells as they are now.
    ///
    /// # Errors
    /// `Running` with the round that isn't done, exactly where one runs; nothing is changed.
    pub fn begin(&mut self, round: u64) -> Result<(), Running>
        ensures variant { IsOk result ↔ (self.old.round ≡ None) }
        ensures ok { OnOk result (self.new ≡ record self.old { round = Some (round, self.old.cells) }) }
        ensures err { IfErr result (λ e. (round_of self.old ≡ Some e.round) × (self.new ≡ self.old)) }
    {
        if let Some(round) = self.round {
            return Err(Running { round });
        }
        self.turn = turned(&mut self.kept, self.turn);
        self.round = Some(round);
        Ok(())
    }

    /// Gives a cell this value. The cell is there.
    pub fn write(&mut self, cell: u16, v: u64)
        requires { cell < length self.old.cells }
        ensures { self.new ≡ record self.old { cells = slice_set self.old.cells cell v } }
    {
        let at = cell as usize;
        keep(&mut self.kept, self.turn, at, self.cells.as_slice()[at]);
        self.cells.set(cell as u64, v);
    }

    /// Appends the cells 32 i to 32 i + 31, as far as there are any, as they were at the begin of the round that runs. There is such a chunk,
    /// and `into` is empty.
    pub fn chunk(&self, i: u8, into: &mut ArrayVec<u64, 32>)
        requires round { IsSome self.now.round }
        requires chunk { i < chunk_count (length self.now.cells) }
        requires empty { into.old.items ≡ [] }
        ensures { into.new.items ≡ chunk_of i (base self.now) }
    {
        let from = 32 * i as usize;
        for at in from..self.kept.len().min(from + 32) {
            into.push(self.at_begin(at));
        }
    }

    // A cell as it was at the last begin.
    fn at_begin(&self, at: usize) -> u64
        requires round { IsSome self.now.round }
        requires at { at < length self.now.cells }
        ensures { result ≡ slice_index (base self.now) at }
    {
        let kept = self.kept[at];
        if kept.turn == self.turn {
            kept.value
        } else {
            self.cells.as_slice()[at]
        }
    }

    /// No round runs any more.
    pub fn done(&mut self)
        ensures { self.new ≡ record self.old { round = None } }
    {
        self.round = None;
    }
}

// The cells become these, which are as many.
fn pour(cells: &mut Cells, from: &[u64])
    requires { length from.now ≡ length cells.old }
    ensures { cells.new ≡ from.now }
{
    for i in 0..from.len() {
        cells.set(i as u64, from[i]);
    }
}

// The next turn. After the last one there is, turns begin again, and nothing is kept.
fn turned(kept: &mut Vec<Kept>, turn: u64) -> u64
    requires { All (λ k. k.turn ≤ turn) kept.old.items }
    ensures length { length kept.new.items ≡ length kept.old.items }
    ensures past { All (λ k. k.turn < result) kept.new.items }
{
    if turn == u64::MAX {
        kept.fill(Kept::NONE);
        return 1;
    }
    turn + 1
}

// Keeps a cell's value, if it wasn't kept this turn.
fn keep(kept: &mut Vec<Kept>, turn: u64, at: usize, value: u64)
    requires { at < length kept.old.items }
    ensures { kept.new.items ≡ keep_at turn at value kept.old.items }
{
    if kept[at].turn != turn {
        kept[at] = Kept { turn, value };
    }
}
