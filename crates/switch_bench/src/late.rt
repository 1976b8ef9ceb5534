//! Acks that come late: each waits until so many others have come after it.

use proto_data::Input;
use rp_base::NoMemory;
use std::alloc::Global;

/// A ring of Acks that wait.
#[derive(Drop)]
pub(crate) struct Late {
    waiting: Vec<Option<Input>>,
    at: usize,
}

impl Late {
    /// A ring of so many places, none of them taken. With no place nothing waits.
    ///
    /// # Errors
    /// `NoMemory`.
    pub(crate) fn of(alloc: Global, places: u32) -> Result<Late, NoMemory> {
        let mut waiting = Vec::new(alloc);
        for _ in 0..places {
            waiting.push(None)?;
        }
        Ok(Late { waiting, at: 0 })
    }

    /// The Ack that has waited for longest, if all places were taken; this one takes its place.
    pub(crate) fn pass(&mut self, ack: Input) -> Option<Input> {
        let at = self.at;
        let next = at.saturating_add(1);
        self.at = if next < self.waiting.len() { next } else { 0 };
        match self.waiting.get_mut(at) {
            Some(place) => place.replace(ack),
            None => Some(ack),
        }
    }
}
