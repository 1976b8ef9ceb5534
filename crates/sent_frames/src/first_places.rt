//! Where bytes first stand. The map is ordered, so that no choice of bytes makes a look-up slow.
ghost use Rattle.std.specs.Prelude.{◌≡◌, List, ℕ, Some, None, cond, OnOk, OnErr};
ghost use Rattle.std.specs.Str.{bytes_eq};
ghost use Rattle.sent_frames.specs.FirstFrames.{place_in};

use rp_base::NoMemory;
use std::alloc::Global;
use std::collections::BTreeMap;

/// A place for some bytes each.
#[derive(Drop)]
pub(crate) struct FirstPlaces {
    places: BTreeMap<Vec<u8>, usize>,
}

impl FirstPlaces {
    /// No bytes have a place. Takes no memory.
    pub(crate) fn new(alloc: Global) -> FirstPlaces
        ensures { (x : List ℕ) → place_in result x ≡ None }
    {
        FirstPlaces {
            places: BTreeMap::new(alloc),
        }
    }

    /// The place of these bytes, if they have one.
    pub(crate) fn get(&self, bytes: &[u8]) -> Option<usize>
        ensures { result ≡ place_in self.now bytes.now }
    {
        self.places.get(bytes).copied()
    }

    /// These bytes have this place from now on. Takes memory for them once.
    ///
    /// # Errors
    /// `NoMemory`; nothing changes.
    pub(crate) fn put(&mut self, alloc: Global, bytes: &[u8], place: usize) -> Result<(), NoMemory>
        ensures ok { OnOk result ((x : List ℕ) → place_in self.new x ≡ cond (bytes_eq x bytes.now) (Some place) (place_in self.old x)) }
        ensures err { OnErr result ((x : List ℕ) → place_in self.new x ≡ place_in self.old x) }
    {
        let key = Vec::from_slice(alloc, bytes)?;
        self.places.insert(key, place)?;
        Ok(())
    }
}
