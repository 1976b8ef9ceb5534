//! The cells of a whole round, in a list that takes no memory.
ghost use Rattle.std.specs.Prelude.{◌≡◌, ◌<◌, ◌≤◌, [], ◌∷◌, ◌++◌, length};

use arrayvec::ArrayVec;
use std::marker::Model;

/// The cells of a round: at most 256.
#[derive(Debug, Drop)]
pub struct RoundCells {
    cells: ArrayVec<u64, 256>,
}

impl Model for RoundCells {
    ghost use Rattle.std.specs.Prelude.{List, ℕ};

    ghost Value = { List ℕ };

    ghost view = { λ c. c.cells.items };
}

impl RoundCells {
    /// No cells.
    pub fn new() -> RoundCells
        ensures { result ≡ [] }
    {
        RoundCells {
            cells: ArrayVec::new(),
        }
    }

    /// Appends a cell; there is room for 256.
    pub fn push(&mut self, v: u64)
        requires { length self.old < 256 }
        ensures { self.new ≡ self.old ++ v ∷ [] }
    {
        self.cells.push(v);
    }

    /// The cells.
    pub fn as_slice(&self) -> &[u64]
        ensures value { result.now ≡ self.now }
        ensures fits { length self.now ≤ 256 }
    {
        self.cells.as_slice()
    }
}
