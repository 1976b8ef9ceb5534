//! The cells that a packet wrote.
ghost use Rattle.std.specs.Prelude.{◌≡◌, ◌<◌, ◌≤◌, ◌↔◌, [], length, slice_get, nat_le, All, IfOk, OnOk, OnErr, IsNone};
ghost use Rattle.std.specs.List.{position};
ghost use Rattle.rp_app.specs.Application.{with_cell, written, IsDelta};

use rp_base::{Cells, NoMemory};
use std::alloc::Global;
use std::marker::Model;

/// The cells that a packet wrote, each with its last value, by rising cell number: at most 256, numbered 0 to 255.
///
/// A packet is dirty exactly where its delta isn't empty.
#[derive(Debug, Drop)]
pub struct Delta {
    pairs: Vec<(u16, u64)>,
}

impl Model for Delta {
    ghost use Rattle.std.specs.Prelude.{List, ℕ};
    ghost use Rattle.rp_app.specs.Application.{IsDelta};

    ghost Value = { List (ℕ × ℕ) };

    ghost view = { λ d. d.pairs.items };

    ghost invariant = { λ d. IsDelta d.pairs.items };
}

impl Delta {
    /// No cell is written. Takes no memory.
    pub fn new(alloc: Global) -> Delta
        ensures { result ≡ [] }
    {
        Delta {
            pairs: Vec::new(alloc),
        }
    }

    /// Gives cell `cell` this value. The cell is below 256.
    ///
    /// # Errors
    /// `NoMemory`; the delta is unchanged.
    pub fn set(&mut self, cell: u16, v: u64) -> Result<(), NoMemory>
        requires { cell < 256 }
        ensures ok { OnOk result (self.new ≡ with_cell self.old cell v) }
        ensures err { OnErr result (self.new ≡ self.old) }
    {
        set_in(&mut self.pairs, cell, v)
    }

    /// An equal delta.
    ///
    /// # Errors
    /// `NoMemory`.
    pub fn copy(&self) -> Result<Delta, NoMemory>
        ensures { IfOk result (λ copied. copied ≡ self.now) }
    {
        Ok(Delta {
            pairs: self.pairs.clone()?,
        })
    }

    /// How many cells are written.
    pub fn len(&self) -> u64
        ensures value { result ≡ length self.now }
        ensures short { length self.now ≤ 256 }
    {
        self.pairs.len() as u64
    }

    /// The cell at place `i` with its value; `None` exactly at or past the length.
    pub fn at(&self, i: u64) -> Option<(u16, u64)>
        ensures value { result ≡ slice_get self.now i }
        ensures none { IsNone result ↔ (length self.now ≤ i) }
    {
        self.pairs.get(i as usize).copied()
    }

    /// The cells with their values.
    pub fn as_slice(&self) -> &[(u16, u64)]
        ensures value { result.now ≡ self.now }
        ensures delta { IsDelta self.now }
    {
        &self.pairs
    }

    /// Writes the cells of the delta, each with its value. All of them are there.
    pub fn write(&self, cells: &mut Cells)
        requires { All (λ d. d.0 < length cells.old) self.now }
        ensures { cells.new ≡ written cells.old self.now }
    {
        for pair in self.as_slice() {
            cells.set(pair.0 as u64, pair.1);
        }
    }

    /// Makes the delta empty.
    pub fn clear(&mut self)
        ensures { self.new ≡ [] }
    {
        self.pairs.clear();
    }
}

fn set_in(pairs: &mut Vec<(u16, u64)>, cell: u16, v: u64) -> Result<(), NoMemory>
    ensures ok { OnOk result (pairs.new.items ≡ with_cell pairs.old.items cell v) }
    ensures err { OnErr result (pairs.new.items ≡ pairs.old.items) }
{
    match place_of(pairs, cell) {
        None => pairs.push((cell, v))?,
        Some(i) => {
            if pairs[i].0 == cell {
                pairs[i] = (cell, v);
            } else {
                pairs.insert(i, (cell, v))?;
            }
        }
    }
    Ok(())
}

// The first place whose cell isn't below this one.
fn place_of(pairs: &[(u16, u64)], cell: u16) -> Option<usize>
    ensures { result ≡ position (λ d. nat_le cell d.0) pairs.now }
{
    pairs.iter().position(|pair| cell <= pair.0)
}
