//! The marks that a slot remembers: a ring that takes its memory with the first one.
ghost use Rattle.std.specs.Prelude.{◌≡◌, ◌<◌, [], None, OnOk, length, slice_index_or, slice_set};
ghost use Rattle.circular_buffer.specs.Buffer.{buffer};
ghost use Rattle.proto_model.specs.Ring.{holds, remember, remembers, forget};
ghost use Rattle.switch_slot.specs.Rings.{emptied_place};

use circular_buffer::HeapCircularBuffer;
use proto_data::MARKS;
use rp_base::NoMemory;
use std::alloc::Global;
use std::marker::Model;

type Places = HeapCircularBuffer<Option<u64>>;

/// The last 64 marks, the oldest first. A mark that is forgotten leaves its place empty.
#[derive(Drop)]
pub struct Ring {
    places: Option<Places>,
    alloc: Global,
}

impl Model for Ring {
    ghost use Rattle.proto_model.specs.Ring.{Ring as Marks};
    ghost use Rattle.switch_slot.specs.Rings.{places_of, IsRing};

    ghost Value = { Marks };

    ghost view = { λ r. places_of r.places };

    ghost invariant = { λ r. IsRing r.places };
}

fn is_at(mark: u64, place: Option<u64>) -> bool
    ensures { result ≡ holds mark place }
{
    match place {
        Some(kept) => kept == mark,
        None => false,
    }
}

fn is_among(places: &[Option<u64>], mark: u64) -> bool
    ensures { result ≡ remembers places.now mark }
{
    for place in places {
        if is_at(mark, *place) {
            return true;
        }
    }
    false
}

fn empty(place: &mut Option<u64>, mark: u64)
    ensures { place.new ≡ emptied_place mark place.old }
{
    if is_at(mark, *place) {
        *place = None;
    }
}

fn empty_at(places: &mut Places, i: usize, mark: u64)
    requires { i < length places.old.items }
    ensures { places.new ≡ buffer (slice_set places.old.items i (emptied_place mark (slice_index_or places.old.items i None))) places.old.capacity }
{
    if let Some(place) = places.get_mut(i) {
        empty(place, mark);
    }
}

fn empty_places(places: &mut Places, mark: u64)
    ensures { places.new ≡ buffer (forget places.old.items mark) places.old.capacity }
{
    for i in 0..places.len() {
        empty_at(places, i, mark);
    }
}

impl Ring {
    /// No marks. Takes no memory.
    pub fn new(alloc: Global) -> Ring
        ensures { result ≡ [] }
    {
        Ring {
            places: None,
            alloc,
        }
    }

    /// Whether a mark is there.
    #[tactic(auto, using(crate::proofs::Marks::remembers_either))]
    pub fn remembers(&self, mark: u64) -> bool
        ensures { result ≡ remembers self.now mark }
    {
        match &self.places {
            Some(places) => {
                let (first, rest) = places.as_slices();
                is_among(first, mark) || is_among(rest, mark)
            }
            None => false,
        }
    }

    /// Puts a mark last; past 64 places the oldest is pushed out.
    ///
    /// # Errors
    /// `NoMemory`, with the first mark alone.
    pub fn remember(&mut self, mark: u64) -> Result<(), NoMemory>
        ensures { OnOk result (self.new ≡ remember self.old mark) }
    {
        let mut places = match self.places.take() {
            Some(places) => places,
            None => HeapCircularBuffer::with_capacity(self.alloc, MARKS)?,
        };
        places.push_back(Some(mark));
        self.places = Some(places);
        Ok(())
    }

    /// Makes the place of a mark empty.
    pub fn forget(&mut self, mark: u64)
        ensures { self.new ≡ forget self.old mark }
    {
        if let Some(places) = &mut self.places {
            empty_places(places, mark);
        }
    }

    /// Gives all marks up.
    pub fn clear(&mut self)
        ensures { self.new ≡ [] }
    {
        if let Some(places) = &mut self.places {
            places.clear();
        }
    }
}
