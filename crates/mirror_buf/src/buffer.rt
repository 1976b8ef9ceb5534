//! The buffer: kind A of its arena has a list for each slot, kind B one list of all copies by last sending.
ghost use Rattle.std.specs.Prelude.{◌≡◌, ◌<◌, ◌≤◌, ◌↔◌, ◌+◌, ◌-◌, ◌++◌, [], All, Some, None, IfOk, IfErr, IsErr, not, length, filter};
ghost use Rattle.mirror_buf.specs.Places.{within};

use crate::kept::Kept;
use arrayvec::ArrayVec;
use link_arena::{Arena, Id, Which};
use proto_data::COPIES;
use rp_base::NoMemory;
use std::alloc::Global;
use std::marker::Model;
use std::sync::ledger::Ledger;
use step_count::Steps;

/// There are 1,024 copies.
#[derive(Clone, Copy, Debug, PartialEq, Eq)]
pub struct Full;

/// At most 1,024 copies, in order of last sending. Memory is taken when the buffer is made and never again.
///
/// No call's time grows with the number of slots or copies, but by the copies that it removes or names.
#[derive(Drop)]
pub struct MirrorBuf {
    arena: Arena<Kept>,
}

impl Model for MirrorBuf {
    ghost use Rattle.mirror_buf.specs.Copies.{Copies};
    ghost use Rattle.mirror_buf.specs.Places.{seen, IsBuffer};

    ghost Value = { Copies };

    ghost view = { λ b. seen b.arena };

    ghost invariant = { λ b. IsBuffer b.arena };
}

impl MirrorBuf {
    ghost use Rattle.mirror_buf.specs.Copies.{numbered_below, sent_by, is_of, is_covered, first_of_greatest, due_ids, with_copy, without_covered, without_slot, resent, IsKept};
    ghost use Rattle.mirror_buf.specs.Places.{TookFirst};
    ghost use Rattle.link_arena.specs.Lists.{find};

    /// No copies, for so many slots.
    ///
    /// # Errors
    /// `NoMemory`.
    pub fn with_room(alloc: Global, slots: u32) -> Result<MirrorBuf, NoMemory>
        ensures { IfOk result (λ made. made ≡ record { copies = []; slots = slots }) }
    {
        Ok(MirrorBuf {
            arena: Arena::with_room(alloc, COPIES as u32, slots, 1)?,
        })
    }

    /// Keeps one copy more, as the last one sent. Its slot is below `slots`, its number above those of its slot's copies, and no copy was sent
    /// later.
    ///
    /// # Errors
    /// `Full` with the copy, exactly where there are 1,024; the buffer is unchanged.
    pub fn put(&mut self, kept: Kept) -> Result<Id, (Full, Kept)>
        requires slot { kept.slot < self.old.slots }
        requires number { All (numbered_below kept.slot kept.number) self.old.copies }
        requires sent { All (sent_by kept.sent) self.old.copies }
        ensures full { IsErr result ↔ (length self.old.copies ≡ 1024) }
        ensures free { IfOk result (λ id. find id self.old.copies ≡ None) }
        ensures ok { IfOk result (λ id. self.new ≡ with_copy self.old id kept) }
        ensures err { IfErr result (λ back. (back.1 ≡ kept) × (self.new ≡ self.old)) }
    {
        let slot = kept.slot;
        match self.arena.add(slot, 0, kept) {
            Ok(id) => Ok(id),
            Err((_full, kept)) => Err((Full, kept)),
        }
    }

    /// Removes the slot's copies with numbers up to `upto`, and gives the first sending of the greatest; `None` exactly where none was removed.
    /// The slot is below `slots`.
    pub fn acked(&mut self, slot: u32, upto: u64) -> Option<u64>
        requires { slot < self.old.slots }
        ensures copies { self.new ≡ without_covered self.old slot upto }
        ensures first { result ≡ first_of_greatest (filter (is_covered slot upto) self.old.copies) }
    {
        let mut first = None;
        while let Some(moment) = self.take_first(slot, Some(upto)) {
            first = Some(moment);
        }
        first
    }

    /// Removes the slot's copies. The slot is below `slots`.
    pub fn give_up(&mut self, slot: u32)
        requires { slot < self.old.slots }
        ensures { self.new ≡ without_slot self.old slot }
    {
        while let Some(_moment) = self.take_first(slot, None) {}
    }

    // Removes the slot's first copy where its number is within the limit, and gives its first sending.
    fn take_first(&mut self, slot: u32, limit: Option<u64>) -> Option<u64>
        requires { slot < self.old.slots }
        ensures { TookFirst slot limit self.old self.new result }
    {
        let Some(id) = self.arena.front(Which::A, slot) else {
            return None;
        };
        if is_past(limit, self.arena.get(id).number) {
            return None;
        }
        Some(self.arena.remove(id).first)
    }

    /// Appends the names of the first copies that were sent at least `age` ago, as far as there is room. No copy was sent after `now`.
    ///
    /// A step is a look at one copy: there is at most one more of them than names are appended.
    pub fn due<L: Ledger>(
        &self,
        now: u64,
        age: u64,
        into: &mut ArrayVec<Id, 64>,
        steps: &mut Steps<L>,
    )
        requires { All (sent_by now) self.now.copies }
        ensures ids { into.new.items ≡ into.old.items ++ due_ids now age (64 - length into.old.items) self.now.copies }
        ensures cost { steps.new + length into.old.items ≤ steps.old + length into.new.items + 1 }
    {
        let mut at = self.arena.front(Which::B, 0);
        while let Some(id) = at {
            if into.is_full() {
                break;
            }
            steps.tick();
            if now - self.arena.get(id).sent < age {
                break;
            }
            into.push(id);
            at = self.arena.next(Which::B, id);
        }
    }

    /// The copy of this name. It is there.
    pub fn get(&self, id: Id) -> &Kept
        requires { IsKept self.now id }
        ensures { find id self.now.copies ≡ Some result.now }
    {
        self.arena.get(id)
    }

    /// The copy was sent again now, and is the last one sent. It is there, and no copy was sent later.
    pub fn resent(&mut self, id: Id, now: u64)
        requires there { IsKept self.old id }
        requires sent { All (sent_by now) self.old.copies }
        ensures { self.new ≡ resent self.old id now }
    {
        self.arena.get_mut(id).sent = now;
        self.arena.move_to_back(Which::B, id);
    }

    /// How many copies a slot has. The slot is below `slots`.
    pub fn count(&self, slot: u32) -> u32
        requires { slot < self.now.slots }
        ensures { result ≡ length (filter (is_of slot) self.now.copies) }
    {
        self.arena.count(Which::A, slot)
    }

    /// How many copies there are.
    pub fn len(&self) -> u32
        ensures value { result ≡ length self.now.copies }
    {
        self.arena.count(Which::B, 0)
    }
}

fn is_past(limit: Option<u64>, number: u64) -> bool
    ensures { result ≡ not (within limit number) }
{
    match limit {
        Some(limit) => limit < number,
        None => false,
    }
}
