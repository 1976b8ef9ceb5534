//! How an Alarm keeps a lease that ends soon: by an empty Put, or by a round of snapshots.
ghost use Rattle.std.specs.Prelude.{◌≡◌, ◌≤◌, ◌<◌, ◌+◌, ◌^◌, None, true, false, length, OnOk};
ghost use Rattle.std.specs.List.{list_any};
ghost use Rattle.proto_model.specs.SwitchAlarm.{empty_put, ends_soon, held_slot, snap_slot, strict_slot, walked_slot};
ghost use Rattle.proto_safety.specs.Sizes.{is_leased};
ghost use Rattle.switch_slot.specs.Leases.{IsSeenAt};
ghost use Rattle.switch_flows.specs.Places.{IsPlaceOf};
ghost use Rattle.switch_core.specs.Walks.{part_sent, round_begun, walk_of, wants_put};

use crate::did::Begun;
use crate::going::Going;
use crate::leases::live_epoch;
use crate::switch::Switch;
use proto_data::{Body, COPIES, Mode};
use rp_app::Delta;
use rp_base::NoMemory;
use switch_flows::Flow;
use switch_slot::{Slot, SlotLease};

impl Switch {
    ghost use Rattle.proto_model.specs.SwitchState.{is_of, with_slot};

    // Whether a slot's lease, which ends at `expiry`, was used and ends within half its term.
    fn ends_soon(&self, slot: &Slot, expiry: u64) -> bool
        requires term { self.now.state.terms.t_switch ≤ 1000000 }
        requires moment { self.now.latest ≤ 2 ^ 62 }
        ensures { result ≡ ends_soon self.now.state self.now.latest slot.now expiry }
    {
        slot.used() && expiry <= self.flows.latest() + self.terms.t_switch / 2
    }

    /// A slot of an Alarm's walk, which was taken out.
    ///
    /// # Errors
    /// `NoMemory`; then nothing is said of the switch.
    pub(crate) fn keep_slot(
        &mut self,
        going: &mut Going,
        flow: &Flow,
        slot: Slot,
    ) -> Result<(), NoMemory>
        requires term { self.old.state.terms.t_switch ≤ 1000000 }
        requires moment { self.old.latest ≤ 2 ^ 62 }
        requires place { IsPlaceOf self.old.state.slots flow.now.key flow.now.place }
        requires seen { IsSeenAt self.old.latest slot.lease }
        requires last { slot.last ≤ 2 ^ 62 }
        ensures walk { OnOk result (walk_of self.new going.new ≡ walked_slot (walk_of (record { state = with_slot self.old.state flow.now.key slot; latest = self.old.latest }) going.old) self.old.latest flow.now.key slot slot.lease) }
        ensures latest { OnOk result (self.new.latest ≡ self.old.latest) }
    {
        let now = self.flows.latest();
        match slot.lease() {
            SlotLease::Held(held) => {
                let (epoch, expiry) = (live_epoch(held, now), held.expiry());
                self.keep_held(going, flow, slot, epoch, expiry)
            }
            _ => {
                self.put(flow, slot);
                Ok(())
            }
        }
    }

    // A slot whose lease lasts, by the mode.
    fn keep_held(
        &mut self,
        going: &mut Going,
        flow: &Flow,
        slot: Slot,
        epoch: u64,
        expiry: u64,
    ) -> Result<(), NoMemory>
        requires term { self.old.state.terms.t_switch ≤ 1000000 }
        requires moment { self.old.latest ≤ 2 ^ 62 }
        requires place { IsPlaceOf self.old.state.slots flow.now.key flow.now.place }
        requires seen { IsSeenAt self.old.latest slot.lease }
        requires leased { is_leased slot.lease ≡ true }
        requires last { slot.last ≤ 2 ^ 62 }
        ensures walk { OnOk result (walk_of self.new going.new ≡ held_slot self.old.state.terms.mode (walk_of (record { state = with_slot self.old.state flow.now.key slot; latest = self.old.latest }) going.old) self.old.latest flow.now.key slot epoch expiry) }
        ensures latest { OnOk result (self.new.latest ≡ self.old.latest) }
    {
        match self.terms.mode {
            Mode::Strict => self.keep_by_put(going, flow, slot, epoch, expiry),
            Mode::Snapshot(_) => self.keep_by_snap(going, flow, slot, epoch, expiry),
        }
    }

    // An empty Put keeps the lease of a slot without copies.
    #[tactic(auto, using(crate::proofs::Keeping::put_goes, crate::proofs::Keeping::put_waits))]
    fn keep_by_put(
        &mut self,
        going: &mut Going,
        flow: &Flow,
        slot: Slot,
        epoch: u64,
        expiry: u64,
    ) -> Result<(), NoMemory>
        requires term { self.old.state.terms.t_switch ≤ 1000000 }
        requires moment { self.old.latest ≤ 2 ^ 62 }
        requires place { IsPlaceOf self.old.state.slots flow.now.key flow.now.place }
        requires seen { IsSeenAt self.old.latest slot.lease }
        requires last { slot.last ≤ 2 ^ 62 }
        ensures walk { OnOk result (walk_of self.new going.new ≡ strict_slot (walk_of (record { state = with_slot self.old.state flow.now.key slot; latest = self.old.latest }) going.old) self.old.latest flow.now.key slot epoch expiry) }
        ensures latest { OnOk result (self.new.latest ≡ self.old.latest) }
    {
        if self.wants_put(flow, &slot, expiry) {
            self.send_empty_put(going, flow, slot, epoch)
        } else {
            self.put(flow, slot);
            Ok(())
        }
    }

    // Whether a lease that ends soon is kept by an empty Put: there is room for a copy, and no other Put keeps it.
    fn wants_put(&self, flow: &Flow, slot: &Slot, expiry: u64) -> bool
        requires term { self.now.state.terms.t_switch ≤ 1000000 }
        requires moment { self.now.latest ≤ 2 ^ 62 }
        requires place { IsPlaceOf self.now.state.slots flow.now.key flow.now.place }
        ensures { result ≡ wants_put self.now.state self.now.latest flow.now.key slot.now expiry }
    {
        self.flows.copy_count() < COPIES
            && !self.flows.has_copies(flow)
            && self.ends_soon(slot, expiry)
    }

    // An empty Put goes, and waits for its Ack.
    #[tactic(auto, using(crate::proofs::Keeping::none_below))]
    fn send_empty_put(
        &mut self,
        going: &mut Going,
        flow: &Flow,
        mut slot: Slot,
        epoch: u64,
    ) -> Result<(), NoMemory>
        requires place { IsPlaceOf self.old.state.slots flow.now.key flow.now.place }
        requires seen { IsSeenAt self.old.latest slot.lease }
        requires last { slot.last ≤ 2 ^ 62 }
        requires free { length self.old.state.copies < 1024 }
        requires none { list_any (is_of flow.now.key) self.old.state.copies ≡ false }
        ensures walk { OnOk result (walk_of self.new going.new ≡ empty_put (walk_of self.old going.old) self.old.latest flow.now.key slot epoch) }
        ensures latest { OnOk result (self.new.latest ≡ self.old.latest) }
    {
        slot.keep();
        let number = slot.last();
        self.flows.keep(flow, number, Delta::new(self.alloc))?;
        self.flows.put(flow, slot);
        going.send(self.to_head(Body::Put {
            inc: self.inc,
            epoch,
            number,
            key: flow.key,
            delta: Delta::new(self.alloc),
            load: None,
        }))
    }

    // The round that runs sends its next chunk, or one begins where an update is missing or the lease ends soon.
    #[tactic(auto, using(crate::proofs::Keeping::round_runs, crate::proofs::Keeping::round_begins, crate::proofs::Keeping::round_waits))]
    fn keep_by_snap(
        &mut self,
        going: &mut Going,
        flow: &Flow,
        slot: Slot,
        epoch: u64,
        expiry: u64,
    ) -> Result<(), NoMemory>
        requires term { self.old.state.terms.t_switch ≤ 1000000 }
        requires moment { self.old.latest ≤ 2 ^ 62 }
        requires place { IsPlaceOf self.old.state.slots flow.now.key flow.now.place }
        requires seen { IsSeenAt self.old.latest slot.lease }
        requires leased { is_leased slot.lease ≡ true }
        requires last { slot.last ≤ 2 ^ 62 }
        ensures walk { OnOk result (walk_of self.new going.new ≡ snap_slot (walk_of (record { state = with_slot self.old.state flow.now.key slot; latest = self.old.latest }) going.old) self.old.latest flow.now.key slot epoch expiry slot.round) }
        ensures latest { OnOk result (self.new.latest ≡ self.old.latest) }
    {
        if slot.round().is_some() {
            self.send_part(going, flow, slot, epoch)
        } else if slot.is_late() || self.ends_soon(&slot, expiry) {
            self.begin_round(going, flow, slot, epoch)
        } else {
            self.put(flow, slot);
            Ok(())
        }
    }

    // A round begins, and its first chunk goes.
    #[tactic(auto, using(crate::proofs::Keeping::part_begun))]
    fn begin_round(
        &mut self,
        going: &mut Going,
        flow: &Flow,
        mut slot: Slot,
        epoch: u64,
    ) -> Result<(), NoMemory>
        requires moment { self.old.latest ≤ 2 ^ 62 }
        requires place { IsPlaceOf self.old.state.slots flow.now.key flow.now.place }
        requires seen { IsSeenAt self.old.latest slot.lease }
        requires leased { is_leased slot.lease ≡ true }
        requires idle { slot.round ≡ None }
        requires last { slot.last ≤ 2 ^ 62 }
        ensures walk { OnOk result (walk_of self.new going.new ≡ round_begun (walk_of self.old going.old) self.old.latest flow.now.key slot epoch) }
        ensures latest { OnOk result (self.new.latest ≡ self.old.latest) }
    {
        slot.begin_round(self.flows.latest());
        going.begin(Begun {
            key: flow.key,
            epoch,
            round: slot.last(),
        })?;
        self.send_part(going, flow, slot, epoch)
    }

    // The next chunk of the round that runs goes, and the next walk begins behind this slot.
    fn send_part(
        &mut self,
        going: &mut Going,
        flow: &Flow,
        mut slot: Slot,
        epoch: u64,
    ) -> Result<(), NoMemory>
        requires place { IsPlaceOf self.old.state.slots flow.now.key flow.now.place }
        requires seen { IsSeenAt self.old.latest slot.lease }
        ensures walk { OnOk result (walk_of self.new going.new ≡ part_sent (walk_of self.old going.old) flow.now.key slot epoch slot.round) }
        ensures latest { OnOk result (self.new.latest ≡ self.old.latest) }
    {
        let Some(part) = slot.next_part() else {
            self.put(flow, slot);
            return Ok(());
        };
        self.walked = Some(flow.key);
        self.flows.put(flow, slot);
        going.send(self.to_head(Body::Snap {
            inc: self.inc,
            epoch,
            round: part.round,
            key: flow.key,
            chunk: part.chunk,
            chunks: part.chunks,
            cells: part.cells,
        }))
    }
}
