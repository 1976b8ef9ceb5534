//! A list of numbers: the cells of a flow, the marks of a serial list, the advances of clocks.
ghost use Rattle.std.specs.Prelude.{◌≡◌, ◌<◌, ◌≤◌, ◌↔◌, [], ◌∷◌, ◌++◌, length, slice_get, slice_set, replicate, IfOk, OnOk, OnErr, IsNone};
ghost use Rattle.std.specs.Option.{option_copied};

use crate::error::NoMemory;
use std::alloc::Global;
use std::marker::Model;

/// A list of numbers of 64 bits.
#[derive(Debug, Drop)]
pub struct Numbers {
    items: Vec<u64>,
}

/// The cells of a flow.
pub type Cells = Numbers;

/// The marks of packets: each is the number of the event that fed the packet.
pub type Marks = Numbers;

/// How far each node's clock goes on, switches first.
pub type Advances = Numbers;

impl Model for Numbers {
    ghost use Rattle.std.specs.Prelude.{List, ℕ};

    ghost Value = { List ℕ };

    ghost view = { λ b. b.items.items };
}

impl Numbers {
    /// An empty list. Takes no memory.
    pub fn new(alloc: Global) -> Numbers
        ensures { result ≡ [] }
    {
        Numbers {
            items: Vec::new(alloc),
        }
    }

    /// A list of `n` zeros.
    ///
    /// # Errors
    /// `NoMemory`.
    pub fn zeros(alloc: Global, n: u16) -> Result<Numbers, NoMemory>
        ensures { IfOk result (λ made. made ≡ replicate n 0) }
    {
        Ok(Numbers {
            items: vec![in alloc; 0; n as usize]?,
        })
    }

    /// Appends a number.
    ///
    /// # Errors
    /// `NoMemory`; the list is unchanged.
    pub fn push(&mut self, v: u64) -> Result<(), NoMemory>
        ensures ok { OnOk result (self.new ≡ self.old ++ v ∷ []) }
        ensures err { OnErr result (self.new ≡ self.old) }
    {
        self.items.push(v)?;
        Ok(())
    }

    /// An equal list.
    ///
    /// # Errors
    /// `NoMemory`.
    pub fn copy(&self) -> Result<Numbers, NoMemory>
        ensures { IfOk result (λ copied. copied ≡ self.now) }
    {
        Ok(Numbers {
            items: self.items.clone()?,
        })
    }

    /// How many numbers.
    pub fn len(&self) -> u64
        ensures { result ≡ length self.now }
    {
        self.items.len() as u64
    }

    /// The number at place `i`, counted from 0; `None` exactly at or past the length.
    pub fn at(&self, i: u64) -> Option<&u64>
        ensures value { option_copied result ≡ slice_get self.now i }
        ensures none { IsNone result ↔ (length self.now ≤ i) }
    {
        self.items.get(i as usize)
    }

    /// The numbers.
    pub fn as_slice(&self) -> &[u64]
        ensures { result.now ≡ self.now }
    {
        &self.items
    }

    /// Writes the number at place `i`.
    pub fn set(&mut self, i: u64, v: u64)
        requires { i < length self.old }
        ensures { self.new ≡ slice_set self.old i v }
    {
        self.items[i as usize] = v;
    }
}
