//! The frames that `next` passes over, those that were delivered or dropped: each is found without a search.
ghost use Rattle.std.specs.Prelude.{ℕ, ◌≡◌, ◌≤◌, ◌<◌, [], ◌∷◌, true, length, OnOk};
ghost use Rattle.world_state.specs.Passing.{flagged, is_passed};

use rp_base::NoMemory;
use std::alloc::Global;
use std::marker::Model;

/// The numbers of the frames that are passed over. It is seen as the list of them, the last passed first.
#[derive(Drop)]
pub(crate) struct Passed {
    order: Vec<u64>,
    // Whether a frame is passed over; for those behind the last flag it is not.
    flags: Vec<bool>,
}

impl Model for Passed {
    ghost use Rattle.std.specs.Prelude.{List, ℕ, reverse};
    ghost use Rattle.world_state.specs.Passing.{IsPassing};

    ghost Value = { List ℕ };

    ghost view = { λ p. reverse p.order.items };

    ghost invariant = { λ p. IsPassing p.order.items p.flags.items };
}

// There are flags for the numbers up to this one; the new ones are off.
fn grow(flags: &mut Vec<bool>, number: usize) -> Result<(), NoMemory>
    ensures same { (i : ℕ) → flagged flags.new.items i ≡ flagged flags.old.items i }
    ensures there { OnOk result (number < length flags.new.items) }
{
    while flags.len() <= number {
        flags.push(false)?;
    }
    Ok(())
}

impl Passed {
    /// Nothing is passed over. Takes no memory.
    pub(crate) fn new(alloc: Global) -> Passed
        ensures { result ≡ [] }
    {
        Passed {
            order: Vec::new(alloc),
            flags: Vec::new(alloc),
        }
    }

    /// Whether the frame of this number is passed over.
    pub(crate) fn has(&self, number: usize) -> bool
        ensures { result ≡ is_passed self.now number }
    {
        match self.flags.get(number) {
            Some(flag) => *flag,
            None => false,
        }
    }

    /// The frame of this number is passed over from now on.
    ///
    /// # Errors
    /// `NoMemory`.
    pub(crate) fn push(&mut self, number: u64) -> Result<(), NoMemory>
        ensures { OnOk result (self.new ≡ number ∷ self.old) }
    {
        grow(&mut self.flags, number as usize)?;
        self.order.push(number)?;
        self.flags[number as usize] = true;
        Ok(())
    }
}
