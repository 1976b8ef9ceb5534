//! Short lists that take no memory: the members of a chain, and the cells of a chunk.
ghost use Rattle.std.specs.Prelude.{◌≡◌, ◌<◌, ◌≤◌, [], ◌∷◌, ◌++◌, length, IfOk};

use arrayvec::ArrayVec;
use rp_base::NoMemory;
use std::marker::Model;

/// The members of a chain, head first: at most 5 numbers of replicas.
#[derive(Debug, Drop)]
pub struct Chain {
    members: ArrayVec<u8, 5>,
}

impl Model for Chain {
    ghost use Rattle.std.specs.Prelude.{List, ℕ};

    ghost Value = { List ℕ };

    ghost view = { λ c. c.members.items };
}

impl Chain {
    /// No members.
    pub fn new() -> Chain
        ensures { result ≡ [] }
    {
        Chain {
            members: ArrayVec::new(),
        }
    }

    /// Appends a member; there is room for 5.
    pub fn push(&mut self, member: u8)
        requires { length self.old < 5 }
        ensures { self.new ≡ self.old ++ member ∷ [] }
    {
        self.members.push(member);
    }

    /// The members, head first.
    pub fn as_slice(&self) -> &[u8]
        ensures value { result.now ≡ self.now }
        ensures fits { length self.now ≤ 5 }
    {
        self.members.as_slice()
    }

    /// An equal chain.
    ///
    /// # Errors
    /// `NoMemory`.
    pub fn copy(&self) -> Result<Chain, NoMemory>
        ensures { IfOk result (λ copied. copied ≡ self.now) }
    {
        Ok(Chain {
            members: self.members.clone()?,
        })
    }
}

/// The cells of one chunk of a snapshot: at most 32.
#[derive(Debug, Drop)]
pub struct Chunk {
    cells: ArrayVec<u64, 32>,
}

impl Model for Chunk {
    ghost use Rattle.std.specs.Prelude.{List, ℕ};

    ghost Value = { List ℕ };

    ghost view = { λ c. c.cells.items };
}

impl Chunk {
    /// No cells.
    pub fn new() -> Chunk
        ensures { result ≡ [] }
    {
        Chunk {
            cells: ArrayVec::new(),
        }
    }

    /// Appends a cell; there is room for 32.
    pub fn push(&mut self, v: u64)
        requires { length self.old < 32 }
        ensures { self.new ≡ self.old ++ v ∷ [] }
    {
        self.cells.push(v);
    }

    /// The cells.
    pub fn as_slice(&self) -> &[u64]
        ensures value { result.now ≡ self.now }
        ensures fits { length self.now ≤ 32 }
    {
        self.cells.as_slice()
    }

    /// An equal chunk.
    ///
    /// # Errors
    /// `NoMemory`.
    pub fn copy(&self) -> Result<Chunk, NoMemory>
        ensures { IfOk result (λ copied. copied ≡ self.now) }
    {
        Ok(Chunk {
            cells: self.cells.clone()?,
        })
    }
}
