//! A list of byte lists.
ghost use Rattle.std.specs.Prelude.{◌≡◌, ◌<◌, ◌≤◌, ◌↔◌, [], ◌∷◌, ◌++◌, length, slice_get, IfOk, OnOk, OnErr, IsNone};
ghost use Rattle.std.specs.Option.{option_copied};

use crate::bytes::Bytes;
use crate::error::NoMemory;
use std::alloc::Global;
use std::marker::Model;

/// A list of words, each a list of bytes.
#[derive(Debug, Drop)]
pub struct Words {
    items: Vec<Bytes>,
    alloc: Global,
}

impl Model for Words {
    ghost use Rattle.std.specs.Prelude.{List, ℕ};

    ghost Value = { List (List ℕ) };

    ghost view = { λ b. b.items.items };
}

impl Words {
    /// An empty list. Takes no memory.
    pub fn new(alloc: Global) -> Words
        ensures { result ≡ [] }
    {
        Words {
            items: Vec::new(alloc),
            alloc,
        }
    }

    /// Appends a word.
    ///
    /// # Errors
    /// `NoMemory`; the list is unchanged.
    pub fn push(&mut self, v: Bytes) -> Result<(), NoMemory>
        ensures ok { OnOk result (self.new ≡ self.old ++ v ∷ []) }
        ensures err { OnErr result (self.new ≡ self.old) }
    {
        self.items.push(v)?;
        Ok(())
    }

    /// An equal list.
    ///
    /// # Errors
    /// `NoMemory`.
    pub fn copy(&self) -> Result<Words, NoMemory>
        ensures { IfOk result (λ copied. copied ≡ self.now) }
    {
        let mut items = Vec::new(self.alloc);
        for word in &self.items {
            items.push(word.copy()?)?;
        }
        Ok(Words {
            items,
            alloc: self.alloc,
        })
    }

    /// How many words.
    pub fn len(&self) -> u64
        ensures { result ≡ length self.now }
    {
        self.items.len() as u64
    }

    /// The word at place `i`, counted from 0; `None` exactly at or past the length.
    pub fn at(&self, i: u64) -> Option<&Bytes>
        ensures value { option_copied result ≡ slice_get self.now i }
        ensures none { IsNone result ↔ (length self.now ≤ i) }
    {
        self.items.get(i as usize)
    }
}
