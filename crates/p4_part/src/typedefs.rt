//! The names of the typedefs so far, in order, so that no choice of names makes them slow to find.
ghost use Rattle.std.specs.Prelude.{◌≡◌, [], OnOk, OnErr};
ghost use Rattle.p4_grammar.specs.Values.{has, named};

use rp_base::NoMemory;
use std::alloc::Global;
use std::collections::BTreeSet;
use std::marker::Model;

/// The names of the typedefs declared so far, each once.
#[derive(Drop)]
pub struct Typedefs {
    names: BTreeSet<Vec<u8>>,
}

impl Model for Typedefs {
    ghost use Rattle.std.specs.Prelude.{List, ℕ, map};

    ghost Value = { List (List ℕ) };

    ghost view = { λ t. map (λ name. name.items) t.names.keys };
}

impl Typedefs {
    /// No names.
    pub fn new(alloc: Global) -> Typedefs
        ensures { result ≡ [] }
    {
        Typedefs {
            names: BTreeSet::new(alloc),
        }
    }

    /// Whether a typedef of this name was declared.
    pub fn has(&self, name: &[u8]) -> bool
        ensures { result ≡ has self.now name.now }
    {
        self.names.contains(name)
    }

    /// Adds a name.
    ///
    /// # Errors
    /// `NoMemory`; the names are unchanged.
    pub fn add(&mut self, alloc: Global, name: &[u8]) -> Result<(), NoMemory>
        ensures ok { OnOk result (self.new ≡ named self.old name.now) }
        ensures err { OnErr result (self.new ≡ self.old) }
    {
        let mut owned = Vec::new(alloc);
        owned.extend_from_slice(name)?;
        self.names.insert(owned)?;
        Ok(())
    }
}
