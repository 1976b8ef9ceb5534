//! A slot: a flow's lease, cells, numbers and the marks that wait.
ghost use Rattle.std.specs.Prelude.{◌≡◌, ◌≤◌, ◌<◌, ◌+◌, ◌∷◌, [], ◌^◌, All, Some, None, true, false, IfOk, IfSome, OnOk, is_some, length, option_map, if◌then◌else◌};
ghost use Rattle.rp_app.specs.Application.{cells_named, written};
ghost use Rattle.proto_model.specs.Ring.{remember, remembers};
ghost use Rattle.proto_model.specs.Slot.{Asking as AskingValue, Idle as IdleValue, Round, acknowledged, emptied, extended, fresh_slot, lapsed_slot, may, updated};
ghost use Rattle.proto_model.specs.SwitchRow.{is_clean, without_asked};
ghost use Rattle.proto_model.specs.SwitchOutcomes.{forget_load, held_output, remember_output};
ghost use Rattle.proto_safety.specs.Sizes.{is_leased};
ghost use Rattle.switch_slot.specs.Leases.{IsSeenAt, IsYoungAsk, lease_of};
ghost use Rattle.switch_slot.specs.Rounds.{advanced, part_of};
ghost use Rattle.switch_slot.specs.Slots.{granted_by};

use crate::cells::{Part, SlotCells};
use crate::lease::SlotLease;
use crate::own_cells;
use crate::ring::Ring;
use lease_state::{HeldOutput, Idle};
use proto_data::Carried;
use rp_app::Delta;
use rp_base::{Cells, NoMemory, Output};
use snap_mode::Ages;
use std::alloc::Global;
use std::marker::Model;
use std::mem;

/// What a switch keeps of one flow.
#[derive(Drop)]
pub struct Slot {
    lease: SlotLease,
    cells: Option<SlotCells>,
    last: u64,
    used: bool,
    asked: Ring,
    held: Ring,
    ages: Ages,
    alloc: Global,
}

impl Model for Slot {
    ghost use Rattle.proto_model.specs.Slot.{Slot as SlotValue};
    ghost use Rattle.switch_slot.specs.Leases.{lease_of};
    ghost use Rattle.switch_slot.specs.Slots.{cells_of, HasCells};

    ghost Value = { SlotValue };

    ghost view = { λ s. record { lease = lease_of s.lease; cells = (cells_of s.cells).cells; last = s.last; used = s.used; asked = s.asked; held = s.held; round = (cells_of s.cells).round; ages = s.ages } };

    ghost invariant = { λ s. HasCells (lease_of s.lease) s.cells };
}

impl Slot {
    /// A slot that is Idle, of a flow that nothing is known of. Takes no memory.
    pub fn fresh(alloc: Global) -> Slot
        ensures { result ≡ fresh_slot }
    {
        Slot {
            lease: SlotLease::Idle(Idle::new()),
            cells: None,
            last: 0,
            used: false,
            asked: Ring::new(alloc),
            held: Ring::new(alloc),
            ages: Ages::new(),
            alloc,
        }
    }

    /// A lease that has ended by now is Lapsed.
    pub fn lapse(&mut self, now: u64)
        ensures slot { self.new ≡ lapsed_slot now self.old }
        ensures seen { IsSeenAt now self.new.lease }
    {
        let lease = mem::replace(&mut self.lease, SlotLease::Idle(Idle::new()));
        self.lease = lease.lapse(now);
    }

    /// How the slot stands with the store. What has ended shows as Lapsed only behind a `lapse`.
    pub fn lease(&self) -> &SlotLease
        ensures { lease_of result.now ≡ self.now.lease }
    {
        &self.lease
    }

    /// The flow's cells. A lease was granted.
    pub fn cells(&self) -> &Cells
        requires { is_leased self.now.lease ≡ true }
        ensures { result.now ≡ self.now.cells }
    {
        self.cells.as_ref().unwrap().cells()
    }

    /// The number of the last packet that changed cells, or of the last round.
    pub fn last(&self) -> u64
        ensures { result ≡ self.now.last }
    {
        self.last
    }

    /// Whether a packet was processed since the lease was granted, or since a number kept it.
    pub fn used(&self) -> bool
        ensures { result ≡ self.now.used }
    {
        self.used
    }

    /// Whether an Ask that is under way carries the packet of this mark.
    pub fn asks_for(&self, mark: u64) -> bool
        ensures { result ≡ remembers self.now.asked mark }
    {
        self.asked.remembers(mark)
    }

    /// A lease is asked for under this nonce with a packet, first at `now`, at most 2^62. What waited is given up.
    ///
    /// # Errors
    /// `NoMemory`.
    pub fn ask(&mut self, nonce: u64, now: u64, mark: u64) -> Result<(), NoMemory>
        requires { now ≤ 2 ^ 62 }
        ensures { OnOk result (self.new ≡ record (emptied self.old (AskingValue nonce now)) { asked = Some mark ∷ [] }) }
    {
        let lease = mem::replace(&mut self.lease, SlotLease::Idle(Idle::new()));
        self.lease = lease.ask(now, nonce);
        self.asked.clear();
        self.held.clear();
        own_cells::done(&mut self.cells);
        self.ages = Ages::new();
        self.asked.remember(mark)
    }

    /// Another packet rides on the Ask.
    ///
    /// # Errors
    /// `NoMemory`.
    pub fn ask_again(&mut self, mark: u64) -> Result<(), NoMemory>
        ensures { OnOk result (self.new ≡ record self.old { asked = remember self.old.asked mark }) }
    {
        self.asked.remember(mark)
    }

    /// No lease, and what waited is given up.
    pub fn idle(&mut self)
        ensures { self.new ≡ emptied self.old IdleValue }
    {
        let lease = mem::replace(&mut self.lease, SlotLease::Idle(Idle::new()));
        self.lease = lease.give_up();
        self.asked.clear();
        self.held.clear();
        own_cells::done(&mut self.cells);
        self.ages = Ages::new();
    }

    /// The lease that was asked for is granted, with the flow's cells, at most 256. The term `t_switch` is at most 2^62, and isn't over.
    ///
    /// # Errors
    /// `NoMemory`.
    pub fn grant(
        &mut self,
        now: u64,
        t_switch: u64,
        epoch: u64,
        cells: &Cells,
    ) -> Result<(), NoMemory>
        requires term { t_switch ≤ 2 ^ 62 }
        requires few { length cells.now ≤ 256 }
        requires young { IsYoungAsk now t_switch self.old.lease }
        ensures slot { OnOk result (self.new ≡ granted_by self.old t_switch epoch cells.now self.old.lease) }
        ensures seen { OnOk result (IsSeenAt now self.new.lease) }
    {
        own_cells::fill(self.alloc, &mut self.cells, cells)?;
        let lease = mem::replace(&mut self.lease, SlotLease::Idle(Idle::new()));
        self.lease = lease.grant(now, t_switch, epoch);
        self.last = 0;
        self.used = false;
        self.ages = Ages::new();
        Ok(())
    }

    /// The packet of this mark came back.
    pub fn forget_asked(&mut self, mark: u64)
        ensures { self.new ≡ without_asked self.old mark }
    {
        self.asked.forget(mark);
    }

    /// A packet wrote these cells, and its output leaves at once. A lease was granted.
    pub fn write(&mut self, delta: &Delta)
        requires leased { is_leased self.old.lease ≡ true }
        requires cells { All (λ c. c < length self.old.cells) (cells_named delta.now) }
        ensures { self.new ≡ record self.old { cells = written self.old.cells delta.now; used = true } }
    {
        own_cells::write(&mut self.cells, delta);
        self.used = true;
    }

    /// A packet wrote these cells, and its output waits for the store. A lease was granted.
    ///
    /// # Errors
    /// `NoMemory`.
    pub fn mirror(&mut self, delta: &Delta, out: &Option<Output>) -> Result<(), NoMemory>
        requires leased { is_leased self.old.lease ≡ true }
        requires cells { All (λ c. c < length self.old.cells) (cells_named delta.now) }
        requires last { self.old.last ≤ 2 ^ 63 }
        ensures { OnOk result (self.new ≡ record self.old { cells = written self.old.cells delta.now; last = self.old.last + 1; used = true; held = remember_output self.old.held out.now }) }
    {
        own_cells::write(&mut self.cells, delta);
        self.last += 1;
        self.used = true;
        match out {
            Some(out) => self.held.remember(out.mark),
            None => Ok(()),
        }
    }

    /// An empty Put takes the next number, and keeps the lease.
    pub fn keep(&mut self)
        requires { self.old.last ≤ 2 ^ 63 }
        ensures { self.new ≡ record self.old { last = self.old.last + 1; used = false } }
    {
        self.last += 1;
        self.used = false;
    }

    /// The lease after an acknowledgement at `now` of what was first sent at `sent_at`. Moment and term `t_switch` are at most 2^62.
    pub fn extend(&mut self, t_switch: u64, now: u64, sent_at: u64)
        requires term { t_switch ≤ 2 ^ 62 }
        requires moment { sent_at ≤ 2 ^ 62 }
        ensures slot { self.new ≡ record self.old { lease = extended t_switch now sent_at self.old.lease } }
        ensures seen { IsSeenAt now self.old.lease → IsSeenAt now self.new.lease }
    {
        let lease = mem::replace(&mut self.lease, SlotLease::Idle(Idle::new()));
        self.lease = lease.extend(t_switch, now, sent_at);
    }

    /// Takes out the output that an Ack brings, if its mark still waits.
    ///
    /// # Errors
    /// `NoMemory`.
    pub fn release(&mut self, load: &Option<Carried>) -> Result<Option<Output>, NoMemory>
        ensures slot { OnOk result (self.new ≡ record self.old { held = forget_load self.old.held load.now }) }
        ensures out { IfOk result (λ out. out ≡ held_output self.old.held load.now) }
    {
        let Some(carried) = load else {
            return Ok(None);
        };
        if !self.held.remembers(carried.mark) {
            return Ok(None);
        }
        self.held.forget(carried.mark);
        let right = HeldOutput::of(carried.mark);
        match carried.output() {
            Ok(out) => Ok(Some(right.release(out))),
            Err(e) => {
                right.give_up();
                Err(e)
            }
        }
    }

    /// Whether what is missing from the last done round is young enough for another packet.
    pub fn may(&self, now: u64, bound: u64) -> bool
        ensures { result ≡ may bound now self.now.ages }
    {
        self.ages.may(now, bound)
    }

    /// A packet with this delta was processed at `now`.
    pub fn age(&mut self, now: u64, delta: &Delta)
        ensures { self.new ≡ record self.old { ages = if is_clean delta.now then self.old.ages else updated now self.old.round self.old.ages } }
    {
        if !delta.as_slice().is_empty() {
            self.ages
                .wrote(now, own_cells::round(&self.cells).is_some());
        }
    }

    /// Whether an update before the running round is missing from the last done one.
    pub fn is_late(&self) -> bool
        ensures { result ≡ is_some self.now.ages.pre }
    {
        self.ages.is_late()
    }

    /// A round of the cells begins with the next number, at `now`, which is at most 2^62. A lease was granted, and no round runs.
    pub fn begin_round(&mut self, now: u64)
        requires leased { is_leased self.old.lease ≡ true }
        requires idle { self.old.round ≡ None }
        requires last { self.old.last ≤ 2 ^ 63 }
        requires moment { now ≤ 2 ^ 62 }
        ensures { self.new ≡ record self.old { last = self.old.last + 1; used = false; round = Some (record { number = self.old.last + 1; begun = now; chunk = 0; cells = self.old.cells }) } }
    {
        self.last += 1;
        self.used = false;
        own_cells::begin(&mut self.cells, self.last, now);
    }

    /// The number of the round that runs, with the moment of its begin, at most 2^62.
    pub fn round(&self) -> Option<(u64, u64)>
        ensures value { result ≡ option_map (λ (r : Round). (r.number, r.begun)) self.now.round }
        ensures past { IfSome result (λ r. r.1 ≤ 2 ^ 62) }
    {
        own_cells::round(&self.cells)
    }

    /// The next chunk of the round that runs, and after the last one the first; `None` exactly where no round runs.
    pub fn next_part(&mut self) -> Option<Part>
        ensures part { result ≡ option_map part_of self.old.round }
        ensures slot { self.new ≡ record self.old { round = option_map advanced self.old.round } }
    {
        own_cells::next_part(&mut self.cells)
    }

    /// The running round is done.
    pub fn round_done(&mut self)
        ensures { self.new ≡ record self.old { round = None; ages = acknowledged self.old.ages } }
    {
        own_cells::done(&mut self.cells);
        self.ages.acked();
    }
}
