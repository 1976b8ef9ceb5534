//! The flows of a switch: their slots in order of making, and the copies that wait for the store.
ghost use Rattle.std.specs.Prelude.{◌≡◌, ◌≤◌, ◌<◌, ◌++◌, ◌∷◌, [], All, None, Some, true, length, filter, fold, map, not, option_map, option_and_then, slice_get, unwrap_or, IfSome, IsNone, IfOk, OnOk};
ghost use Rattle.std.specs.List.{list_any};
ghost use Rattle.key_table.specs.Table.{get, map_values, put};
ghost use Rattle.proto_model.specs.Slot.{Slot as SlotValue, epoch_of, fresh_slot, lapsed_slot};
ghost use Rattle.proto_model.specs.SwitchState.{Copy, greatest_first, is_covered, is_of};
ghost use Rattle.proto_model.specs.SwitchAlarm.{due_copies, other_copies};
ghost use Rattle.proto_data.specs.declared.limits.TheConstants.{MESSAGES};
ghost use Rattle.switch_slot.specs.Leases.{IsSeenAt};
ghost use Rattle.switch_flows.specs.Places.{IsPlaceOf};

use crate::put_copy::PutCopy;
use crate::resending::resend_due;
use indexmap::IndexMap;
use mirror_buf::{Kept, MirrorBuf};
use proto_data::SLOTS;
use rp_app::Delta;
use rp_base::{Key, NoMemory};
use std::alloc::Global;
use std::marker::Model;
use std::mem;
use switch_slot::Slot;

/// A flow's key, with the place of its slot in order of making, from 0.
#[derive(Clone, Copy, Debug)]
pub struct Flow {
    /// The flow's key.
    pub key: Key,
    /// The place of its slot, below 1,024.
    pub place: usize,
}

/// At most 1,024 slots and 1,024 copies, seen at the latest moment: a lease that has ended by then is Lapsed.
///
/// No call's time grows with the number of slots or copies, but by the copies that it takes out or gives; `make` moves all slots where their
/// map grows.
#[derive(Drop)]
pub struct Flows {
    rows: IndexMap<Key, Slot>,
    copies: MirrorBuf,
    latest: u64,
    alloc: Global,
}

impl Model for Flows {
    ghost use Rattle.key_table.specs.Table.{keys};
    ghost use Rattle.switch_flows.specs.States.{FlowsAt};
    ghost use Rattle.switch_flows.specs.Kept.{AreFlows, seen};

    ghost Value = { FlowsAt };

    ghost view = { λ f. seen f.rows.entries f.copies f.latest };

    ghost invariant = { λ f. AreFlows (keys f.rows.entries) f.copies f.latest };
}

impl Flows {
    /// No flows, at moment 0. The room for copies is taken here.
    ///
    /// # Errors
    /// `NoMemory`.
    pub fn open(alloc: Global) -> Result<Flows, NoMemory>
        ensures { IfOk result (λ made. made ≡ record { slots = []; copies = []; latest = 0 }) }
    {
        Ok(Flows {
            rows: IndexMap::new(alloc),
            copies: MirrorBuf::with_room(alloc, SLOTS as u32)?,
            latest: 0,
            alloc,
        })
    }

    /// How many flows have a slot.
    pub fn len(&self) -> usize
        ensures { result ≡ length self.now.slots }
    {
        self.rows.len()
    }

    /// The moment at which the flows are seen.
    pub fn latest(&self) -> u64
        ensures { result ≡ self.now.latest }
    {
        self.latest
    }

    /// From now on the flows are seen at this moment, which isn't before the latest.
    pub fn see(&mut self, now: u64)
        requires { self.old.latest ≤ now }
        ensures { self.new ≡ record { slots = map_values (lapsed_slot now) self.old.slots; copies = self.old.copies; latest = now } }
    {
        self.latest = now;
    }

    /// The flow of a key; `None` exactly where it has no slot.
    pub fn find(&self, key: &Key) -> Option<Flow>
        ensures key { IfSome result (λ flow. flow.key ≡ key.now) }
        ensures place { IfSome result (λ flow. IsPlaceOf self.now.slots flow.key flow.place) }
        ensures none { IsNone result → get self.now.slots key.now ≡ None }
    {
        let place = self.rows.get_index_of(key)?;
        Some(Flow { key: *key, place })
    }

    /// The key at a place in order of making, with its slot as it was last put: its lease may have ended. `None` past the last one.
    pub fn at(&self, place: usize) -> Option<(Key, &Slot)>
        ensures { slice_get self.now.slots place ≡ option_map (λ e. (e.0, lapsed_slot self.now.latest e.1.now)) result }
    {
        let (key, slot) = self.rows.get_index(place)?;
        Some((*key, slot))
    }

    /// The epoch of a key's lease, 0 where it has none.
    pub fn epoch(&self, key: &Key) -> u64
        ensures { result ≡ unwrap_or (option_and_then (λ (slot : SlotValue). epoch_of slot.lease) (get self.now.slots key.now)) 0 }
    {
        match self.rows.get(key) {
            Some(slot) => slot.lease().epoch().unwrap_or(0),
            None => 0,
        }
    }

    /// Makes a slot for a flow that has none. There are fewer than 1,024.
    ///
    /// # Errors
    /// `NoMemory`.
    pub fn make(&mut self, key: Key) -> Result<Flow, NoMemory>
        requires none { get self.old.slots key ≡ None }
        requires room { length self.old.slots < 1024 }
        ensures slots { OnOk result (self.new ≡ record self.old { slots = put self.old.slots key fresh_slot }) }
        ensures key { IfOk result (λ flow. flow.key ≡ key) }
        ensures place { IfOk result (λ flow. IsPlaceOf self.new.slots flow.key flow.place) }
    {
        let place = self.rows.len();
        self.rows.insert(key, Slot::fresh(self.alloc))?;
        Ok(Flow { key, place })
    }

    /// Takes the slot of a flow out; a fresh one keeps its place.
    pub fn take(&mut self, flow: &Flow) -> Slot
        requires { IsPlaceOf self.old.slots flow.now.key flow.now.place }
        ensures value { get self.old.slots flow.now.key ≡ Some result }
        ensures seen { IsSeenAt self.old.latest result.lease }
        ensures slots { self.new ≡ record self.old { slots = put self.old.slots flow.now.key fresh_slot } }
        ensures place { IsPlaceOf self.new.slots flow.now.key flow.now.place }
    {
        let fresh = Slot::fresh(self.alloc);
        let mut slot = mem::replace(&mut self.rows[flow.place], fresh);
        slot.lapse(self.latest);
        slot
    }

    /// The slot of a flow from now on.
    pub fn put(&mut self, flow: &Flow, slot: Slot)
        requires place { IsPlaceOf self.old.slots flow.now.key flow.now.place }
        requires seen { IsSeenAt self.old.latest slot.lease }
        ensures { self.new ≡ record self.old { slots = put self.old.slots flow.now.key slot } }
    {
        self.rows[flow.place] = slot;
    }

    /// How many copies there are.
    pub fn copy_count(&self) -> usize
        ensures { result ≡ length self.now.copies }
    {
        self.copies.len() as usize
    }

    /// Whether a flow has copies.
    pub fn has_copies(&self, flow: &Flow) -> bool
        requires { IsPlaceOf self.now.slots flow.now.key flow.now.place }
        ensures { result ≡ list_any (is_of flow.now.key) self.now.copies }
    {
        self.copies.count(flow.place as u32) != 0
    }

    /// Keeps a copy of what is sent at the latest moment. There are fewer than 1,024, and its number is above those of the flow's copies.
    ///
    /// # Errors
    /// `NoMemory`.
    pub fn keep(&mut self, flow: &Flow, number: u64, delta: Delta) -> Result<(), NoMemory>
        requires place { IsPlaceOf self.old.slots flow.now.key flow.now.place }
        requires room { length self.old.copies < 1024 }
        requires numbers { All (λ c. is_of flow.now.key c ≡ true → c.number < number) self.old.copies }
        ensures { OnOk result (self.new ≡ record self.old { copies = self.old.copies ++ record { key = flow.now.key; number = number; delta = delta; first = self.old.latest; sent = self.old.latest } ∷ [] }) }
    {
        let now = self.latest;
        let kept = Kept {
            slot: flow.place as u32,
            number,
            delta,
            first: now,
            sent: now,
        };
        match self.copies.put(kept) {
            Ok(_id) => Ok(()),
            Err((_full, _kept)) => Err(NoMemory),
        }
    }

    /// Gives the copies of a flow up.
    pub fn give_up(&mut self, flow: &Flow)
        requires { IsPlaceOf self.old.slots flow.now.key flow.now.place }
        ensures { self.new ≡ record self.old { copies = filter (λ c. not (is_of flow.now.key c)) self.old.copies } }
    {
        self.copies.give_up(flow.place as u32);
    }

    /// Takes out the copies that an Ack covers, and gives the first sending of the greatest of these, if there is one.
    pub fn acknowledge(&mut self, flow: &Flow, upto: u64) -> Option<u64>
        requires { IsPlaceOf self.old.slots flow.now.key flow.now.place }
        ensures first { result ≡ option_map (λ b. b.1) (fold greatest_first None (filter (is_covered flow.now.key upto) self.old.copies)) }
        ensures past { IfSome result (λ moment. moment ≤ self.old.latest) }
        ensures copies { self.new ≡ record self.old { copies = filter (λ c. not (is_covered flow.now.key upto c)) self.old.copies } }
    {
        self.copies.acked(flow.place as u32, upto)
    }

    /// Stamps the first copies that are due at this age, at most 64, with the latest moment and puts them last. Gives them as they were.
    ///
    /// # Errors
    /// `NoMemory`.
    pub fn resend(&mut self, age: u64) -> Result<Vec<PutCopy>, NoMemory>
        ensures due { IfOk result (λ due. due.items ≡ due_copies self.old.latest age MESSAGES self.old.copies) }
        ensures copies { OnOk result (self.new ≡ record self.old { copies = other_copies self.old.latest age MESSAGES self.old.copies ++ map (λ (c : Copy). record c { sent = self.old.latest }) (due_copies self.old.latest age MESSAGES self.old.copies) }) }
    {
        resend_due(self.alloc, &self.rows, &mut self.copies, self.latest, age)
    }
}
