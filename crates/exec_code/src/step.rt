//! Statements over numbered slots, cells, actions and tables.
ghost use Rattle.std.specs.Prelude.{◌≡◌, OnOk};
ghost use Rattle.app_meaning.specs.Statements.{cell_of, store};
ghost use Rattle.tree_cells.specs.Fit.{IsWithin};

use crate::code::Code;
use app_data::Run;
use p4_ast::{P4Slice, P4Validity};
use rp_base::NoMemory;
use sqlite_items::{Boxed, Items};
use std::marker::Model;
use tree_cells::{cell_of, member, store};

/// Where a number goes: to a slot, or to some of its bits, but not where the header that the slot is a field of isn't valid.
#[derive(Clone, Copy)]
pub struct Target {
    pub header: Option<usize>,
    pub slot: Option<usize>,
    pub bits: Option<P4Slice>,
}

/// Cells that are declared together: one, or an array, all among the first 256.
#[derive(Drop)]
pub struct CellRange {
    first: u64,
    size: Option<u128>,
}

impl Model for CellRange {
    ghost use Rattle.std.specs.Prelude.{ℕ, Option};
    ghost use Rattle.tree_cells.specs.Fit.{IsWithin};

    ghost Value = { ℕ × Option ℕ };

    ghost view = { λ c. (c.first, c.size) };

    ghost invariant = { λ c. IsWithin c.first c.size };
}

impl CellRange {
    /// The cells from this one on, of an array as many as its size says. They are among the first 256.
    pub fn new(first: u64, size: Option<u128>) -> CellRange
        requires { IsWithin first size }
        ensures { result ≡ (first, size) }
    {
        CellRange { first, size }
    }

    /// The number of a cell, if there is one: of an array the member at the index.
    pub fn at(&self, index: Option<u128>) -> Option<u16>
        ensures { result ≡ cell_of self.now.0 self.now.1 index }
    {
        cell_of(self.first, self.size, index)
    }

    /// How many cells an array has; `None` for one cell by itself.
    pub fn size(&self) -> Option<u128>
        ensures { result ≡ self.now.1 }
    {
        self.size
    }

    /// A number for a cell: for an array's member at the index, nothing where there is none.
    ///
    /// # Errors
    /// `NoMemory`.
    pub fn write(&self, index: Option<u128>, n: u64, run: &mut Run) -> Result<(), NoMemory>
        ensures { OnOk result (run.new ≡ store (cell_of self.now.0 self.now.1 index) n run.old) }
    {
        match self.size {
            None => store(run, Some(self.first as u16), n),
            Some(size) => match index {
                None => Ok(()),
                Some(i) => store(run, member(self.first, size, i), n),
            },
        }
    }
}

/// A read of a cell, of so many bits.
#[derive(Drop)]
pub struct Reading {
    pub target: Target,
    pub cells: CellRange,
    pub index: Option<Boxed<Code>>,
    pub width: u8,
}

/// A write of the first value to one cell, or of the second to the member of an array that the first is.
#[derive(Drop)]
pub struct Writing {
    pub cells: CellRange,
    pub first: Boxed<Code>,
    pub second: Option<Boxed<Code>>,
}

/// What decides between two branches.
#[derive(Drop)]
pub enum Test {
    /// Whether a value is true.
    Holds(Boxed<Code>),
    /// Whether the outcome of a table is a hit, or, where this isn't wanted, a miss.
    Hits(Option<usize>, bool),
}

/// A step of a run. Actions and tables have numbers; `None` stands for one that does nothing.
#[derive(Drop)]
pub enum Step {
    /// A value for a slot, width and all.
    Set(Option<usize>, Boxed<Code>),
    /// A number for a target.
    Assign(Target, Boxed<Code>),
    Read(Boxed<Reading>),
    Write(Boxed<Writing>),
    /// The flow's key.
    Key(Boxed<Code>),
    /// The header of this slot becomes valid or invalid; it has so many fields.
    Validate(P4Validity, usize, u64),
    Apply(Option<usize>),
    Call(Option<usize>, Items<Boxed<Code>>),
    /// Steps, one after the other.
    Block(Items<Boxed<Step>>),
    /// The first step where the test holds, else the second.
    If(Boxed<Test>, Boxed<Step>, Boxed<Step>),
}
