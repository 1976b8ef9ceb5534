//! Grants: a lease begins, or a packet that rode on an Ask comes back.
ghost use Rattle.std.specs.Prelude.{◌≡◌, ◌≤◌, ◌<◌, ◌^◌, ◌&&◌, ◌==◌, IfOk, length, if◌then◌else◌, true};
ghost use Rattle.proto_data.specs.Carrying.{packet_of};
ghost use Rattle.proto_model.specs.SwitchRow.{Late, Stale, asked_mark, at_slot, carried_row, grant_row, process_row, without_asked};
ghost use Rattle.proto_safety.specs.Sizes.{is_leased};
ghost use Rattle.switch_slot.specs.Leases.{IsSeenAt};
ghost use Rattle.switch_flows.specs.Places.{IsPlaceOf};
ghost use Rattle.switch_core.specs.Rows.{timely_row};
ghost use Rattle.switch_slot.specs.Leases.{IsYoungAsk};
ghost use Rattle.switch_core.specs.States.{AreUpTo, IsTaken};
ghost use Rattle.switch_core.specs.Steady.{IsSteady};

use crate::did::SwitchDid;
use crate::leases::live_epoch;
use crate::switch::Switch;
use proto_data::Carried;
use rp_app::App;
use rp_base::{Cells, DropCause, NoMemory};
use switch_flows::Flow;
use switch_slot::{Slot, SlotLease};

impl Switch {
    ghost use Rattle.std.specs.Prelude.{Option};
    ghost use Rattle.rp_base.specs.declared.event.Lost.{Lost as LostValue};
    ghost use Rattle.proto_model.specs.SwitchState.{only_lost, slot_at, with_slot};
    ghost use Rattle.proto_model.specs.SwitchOutcomes.{perform};
    ghost use Rattle.switch_core.specs.States.{acts, stepped};

    /// A message is lost as stale, and the slot that was taken out stays as it is.
    pub(crate) fn stale(&mut self, flow: &Flow, slot: Slot) -> SwitchDid
        requires place { IsPlaceOf self.old.state.slots flow.now.key flow.now.place }
        requires seen { IsSeenAt self.old.latest slot.lease }
        ensures state { self.new ≡ record { state = with_slot self.old.state flow.now.key slot; latest = self.old.latest } }
        ensures did { result ≡ only_lost LostValue.Stale }
    {
        self.put(flow, slot);
        SwitchDid::stale(self.alloc)
    }

    /// A Grant for a flow with a slot.
    ///
    /// # Errors
    /// `NoMemory`.
    pub(crate) fn on_grant<A: App>(
        &mut self,
        app: &A,
        flow: &Flow,
        inc: u64,
        nonce: u64,
        epoch: u64,
        cells: &Cells,
        load: &Option<Carried>,
    ) -> Result<SwitchDid, NoMemory>
        requires moment { self.old.latest ≤ 2 ^ 62 }
        requires place { IsPlaceOf self.old.state.slots flow.now.key flow.now.place }
        requires steady { IsSteady (A.meaning app.now).cell_count (2 ^ 61) self.old.state }
        ensures { IfOk result (λ did. (self.new, did) ≡ acts self.old (if (inc == self.old.state.inc) && (length cells.now == (A.meaning app.now).cell_count) then at_slot (slot_at self.old.state flow.now.key) (λ slot. grant_row (A.meaning app.now) self.old.state self.old.latest flow.now.key slot nonce epoch cells.now load.now slot.lease) else Stale)) }
    {
        if inc == self.inc && cells.len() == app.cells() as u64 {
            let slot = self.take(flow);
            self.grant(app, flow, slot, nonce, epoch, cells, load)
        } else {
            Ok(SwitchDid::stale(self.alloc))
        }
    }

    // A Grant of this incarnation with the right number of cells, by the lease of the slot, which was taken out.
    #[tactic(auto, using(crate::proofs::Over::too_late, crate::proofs::Over::held_again))]
    fn grant<A: App>(
        &mut self,
        app: &A,
        flow: &Flow,
        slot: Slot,
        nonce: u64,
        epoch: u64,
        cells: &Cells,
        load: &Option<Carried>,
    ) -> Result<SwitchDid, NoMemory>
        requires term { self.old.state.terms.t_switch ≤ 1000000 }
        requires moment { self.old.latest ≤ 2 ^ 62 }
        requires place { IsPlaceOf self.old.state.slots flow.now.key flow.now.place }
        requires seen { IsSeenAt self.old.latest slot.lease }
        requires whole { length cells.now ≡ (A.meaning app.now).cell_count }
        requires few { length cells.now ≤ 256 }
        requires taken { IsTaken (A.meaning app.now).cell_count flow.now.key self.old.state.copies slot }
        ensures { IfOk result (λ did. (self.new, did) ≡ stepped self.old (perform (with_slot self.old.state flow.now.key slot) self.old.latest (grant_row (A.meaning app.now) (with_slot self.old.state flow.now.key slot) self.old.latest flow.now.key slot nonce epoch cells.now load.now slot.lease))) }
    {
        let now = self.flows.latest();
        match slot.lease() {
            SlotLease::Idle(_) | SlotLease::Lapsed(_) => Ok(self.stale(flow, slot)),
            SlotLease::Asking(asking) => {
                if asking.nonce() != nonce {
                    Ok(self.stale(flow, slot))
                } else if asking.young(now, self.terms.t_switch) {
                    self.on_timely_grant(app, flow, slot, epoch, cells, load)
                } else {
                    Ok(self.on_late_grant(flow, slot, load))
                }
            }
            SlotLease::Held(held) => {
                if held.nonce() == nonce && held.epoch() == epoch {
                    let epoch = live_epoch(held, now);
                    self.on_grant_again(app, flow, slot, epoch, load)
                } else {
                    Ok(self.stale(flow, slot))
                }
            }
        }
    }

    // A Grant that an Asking slot takes in time.
    #[tactic(auto, using(crate::proofs::Over::carried_processed))]
    fn on_timely_grant<A: App>(
        &mut self,
        app: &A,
        flow: &Flow,
        mut slot: Slot,
        epoch: u64,
        cells: &Cells,
        load: &Option<Carried>,
    ) -> Result<SwitchDid, NoMemory>
        requires place { IsPlaceOf self.old.state.slots flow.now.key flow.now.place }
        requires term { self.old.state.terms.t_switch ≤ 1000000 }
        requires young { IsYoungAsk self.old.latest self.old.state.terms.t_switch slot.lease }
        requires whole { length cells.now ≡ (A.meaning app.now).cell_count }
        requires few { length cells.now ≤ 256 }
        requires none { AreUpTo flow.now.key 0 self.old.state.copies }
        ensures { IfOk result (λ did. (self.new, did) ≡ acts self.old (timely_row (A.meaning app.now) self.old.state self.old.latest flow.now.key slot epoch cells.now load.now slot.lease)) }
    {
        slot.grant(self.flows.latest(), self.terms.t_switch, epoch, cells)?;
        match load {
            Some(carried) if slot.asks_for(carried.mark) => self.process_carried(
                app, flow, slot, epoch, carried,
            ),
            _ => {
                self.put(flow, slot);
                Ok(SwitchDid::nothing(self.alloc))
            }
        }
    }

    // A packet that a Grant brings, and that is still asked for.
    fn process_carried<A: App>(
        &mut self,
        app: &A,
        flow: &Flow,
        mut slot: Slot,
        epoch: u64,
        carried: &Carried,
    ) -> Result<SwitchDid, NoMemory>
        requires place { IsPlaceOf self.old.state.slots flow.now.key flow.now.place }
        requires seen { IsSeenAt self.old.latest slot.lease }
        requires leased { is_leased slot.lease ≡ true }
        requires cells { length slot.cells ≡ (A.meaning app.now).cell_count }
        requires room { slot.last ≤ 2 ^ 62 }
        requires numbers { AreUpTo flow.now.key slot.last self.old.state.copies }
        ensures { IfOk result (λ did. (self.new, did) ≡ acts self.old (process_row self.old.state.terms.mode self.old.state self.old.latest flow.now.key (without_asked slot carried.now.mark) epoch carried.now.mark ((A.meaning app.now).plain slot.cells (packet_of carried.now)))) }
    {
        slot.forget_asked(carried.mark);
        let packet = carried.packet()?;
        self.process(app, flow, slot, epoch, &packet)
    }

    // A Grant that an Asking slot takes too late.
    fn on_late_grant(&mut self, flow: &Flow, slot: Slot, load: &Option<Carried>) -> SwitchDid
        requires place { IsPlaceOf self.old.state.slots flow.now.key flow.now.place }
        ensures { (self.new, result) ≡ acts self.old (Late flow.now.key slot (asked_mark slot load.now)) }
    {
        let mark = match load {
            Some(carried) if slot.asks_for(carried.mark) => Some(carried.mark),
            _ => None,
        };
        self.make_idle(flow, slot);
        match mark {
            Some(mark) => SwitchDid::dropped(self.alloc, mark, DropCause::Late),
            None => SwitchDid::nothing(self.alloc),
        }
    }

    // A Grant of the lease that the slot holds.
    #[tactic(auto, using(crate::proofs::Over::again_over))]
    fn on_grant_again<A: App>(
        &mut self,
        app: &A,
        flow: &Flow,
        slot: Slot,
        epoch: u64,
        load: &Option<Carried>,
    ) -> Result<SwitchDid, NoMemory>
        requires place { IsPlaceOf self.old.state.slots flow.now.key flow.now.place }
        requires seen { IsSeenAt self.old.latest slot.lease }
        requires leased { is_leased slot.lease ≡ true }
        requires cells { length slot.cells ≡ (A.meaning app.now).cell_count }
        requires room { slot.last ≤ 2 ^ 62 }
        requires numbers { AreUpTo flow.now.key slot.last self.old.state.copies }
        ensures { IfOk result (λ did. (self.new, did) ≡ stepped self.old (perform (with_slot self.old.state flow.now.key slot) self.old.latest (carried_row (A.meaning app.now) (with_slot self.old.state flow.now.key slot) self.old.latest flow.now.key slot epoch Stale load.now))) }
    {
        match load {
            Some(carried) => {
                if slot.asks_for(carried.mark) {
                    self.process_carried(app, flow, slot, epoch, carried)
                } else {
                    Ok(self.stale(flow, slot))
                }
            }
            None => Ok(self.stale(flow, slot)),
        }
    }
}
