//! Numbers that were reached, in order, with a mark for each.
ghost use Rattle.std.specs.Prelude.{◌≡◌, [], slice_get, OnOk, IfOk};
ghost use Rattle.p4_cycles.specs.Graphs.{is_among, grown, joined};

use rp_base::NoMemory;
use std::alloc::Global;
use std::marker::Model;

/// Numbers, each once.
#[derive(Drop)]
pub struct Flood {
    order: Vec<u64>,
    marks: Vec<bool>,
}

impl Model for Flood {
    ghost use Rattle.std.specs.Prelude.{List, ℕ};
    ghost use Rattle.p4_cycles.specs.Marks.{AreMarks};

    ghost Value = { List ℕ };

    ghost view = { λ f. f.order.items };

    ghost invariant = { λ f. AreMarks f.marks.items f.order.items };
}

impl Flood {
    /// No numbers; those below `states` are found by their marks.
    ///
    /// # Errors
    /// `NoMemory`.
    pub fn new(alloc: Global, states: usize) -> Result<Flood, NoMemory>
        ensures { IfOk result (λ f. f ≡ []) }
    {
        let mut marks = Vec::new(alloc);
        marks.resize(states, false)?;
        Ok(Flood {
            order: Vec::new(alloc),
            marks,
        })
    }

    /// The number at a place, where there is one.
    pub fn at(&self, i: usize) -> Option<u64>
        ensures { result ≡ slice_get self.now i }
    {
        self.order.get(i).copied()
    }

    /// Whether a number is among them.
    pub fn has(&self, y: u64) -> bool
        ensures { result ≡ is_among y self.now }
    {
        let i = y as usize;
        if i < self.marks.len() {
            self.marks[i]
        } else {
            is_among(y, self.order.as_slice())
        }
    }

    /// Adds a number, unless it is among them.
    ///
    /// # Errors
    /// `NoMemory`.
    pub fn add(&mut self, y: u64) -> Result<(), NoMemory>
        ensures { OnOk result (self.new ≡ grown self.old y) }
    {
        if self.has(y) {
            return Ok(());
        }
        self.order.reserve(1)?;
        let i = y as usize;
        if i < self.marks.len() {
            self.marks[i] = true;
        }
        self.order.push(y)?;
        Ok(())
    }

    /// Adds the new ones of others.
    ///
    /// # Errors
    /// `NoMemory`.
    pub fn join(&mut self, ys: &[u64]) -> Result<(), NoMemory>
        ensures { OnOk result (self.new ≡ joined self.old ys.now) }
    {
        for y in ys {
            self.add(*y)?;
        }
        Ok(())
    }
}

// Past the marks the numbers are gone through. No graph of a program has such a number.
fn is_among(y: u64, xs: &[u64]) -> bool
    ensures { result ≡ is_among y xs.now }
{
    for x in xs {
        if *x == y {
            return true;
        }
    }
    false
}
