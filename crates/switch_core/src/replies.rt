//! Acks, Denies and Busies of the store, and configurations of the master.
ghost use Rattle.std.specs.Prelude.{◌≡◌, ◌≤◌, ◌^◌, ◌&&◌, ◌==◌, IfOk, IfSome, nat_lt, if◌then◌else◌};
ghost use Rattle.proto_model.specs.SwitchRow.{Adopts, Denied, Stale, ack_row, at_slot, busy_row, has_epoch, round_row};
ghost use Rattle.switch_slot.specs.Leases.{IsSeenAt};
ghost use Rattle.switch_flows.specs.Places.{IsPlaceOf};
ghost use Rattle.switch_core.specs.Rows.{acked_by};

use crate::did::SwitchDid;
use crate::leases::{is_asked, is_of_epoch};
use crate::switch::Switch;
use proto_data::{Carried, Config, Mode};
use rp_base::{DropCause, NoMemory};
use switch_flows::Flow;
use switch_slot::Slot;

impl Switch {
    ghost use Rattle.proto_model.specs.SwitchState.{slot_at, with_slot};
    ghost use Rattle.proto_model.specs.SwitchOutcomes.{after_acked, idled, perform};
    ghost use Rattle.switch_core.specs.States.{acts, stepped};

    // Whether this switch has a lease of this epoch in the slot.
    fn owns(&self, slot: &Slot, inc: u64, epoch: u64) -> bool
        ensures { result ≡ ((inc == self.now.state.inc) && has_epoch slot.now.lease epoch) }
    {
        inc == self.inc && is_of_epoch(slot.lease(), epoch)
    }

    /// An Ack for a flow with a slot.
    ///
    /// # Errors
    /// `NoMemory`.
    pub(crate) fn on_ack(
        &mut self,
        flow: &Flow,
        inc: u64,
        epoch: u64,
        upto: u64,
        load: &Option<Carried>,
    ) -> Result<SwitchDid, NoMemory>
        requires term { self.old.state.terms.t_switch ≤ 1000000 }
        requires moment { self.old.latest ≤ 2 ^ 62 }
        requires place { IsPlaceOf self.old.state.slots flow.now.key flow.now.place }
        ensures { IfOk result (λ did. (self.new, did) ≡ acts self.old (at_slot (slot_at self.old.state flow.now.key) (λ slot. if (inc == self.old.state.inc) && has_epoch slot.lease epoch then ack_row self.old.state.terms.mode flow.now.key slot upto load.now else Stale))) }
    {
        let slot = self.take(flow);
        self.ack(flow, slot, inc, epoch, upto, load)
    }

    // An Ack, by the lease of its slot, which was taken out.
    fn ack(
        &mut self,
        flow: &Flow,
        slot: Slot,
        inc: u64,
        epoch: u64,
        upto: u64,
        load: &Option<Carried>,
    ) -> Result<SwitchDid, NoMemory>
        requires term { self.old.state.terms.t_switch ≤ 1000000 }
        requires moment { self.old.latest ≤ 2 ^ 62 }
        requires place { IsPlaceOf self.old.state.slots flow.now.key flow.now.place }
        requires seen { IsSeenAt self.old.latest slot.lease }
        ensures { IfOk result (λ did. (self.new, did) ≡ stepped self.old (perform (with_slot self.old.state flow.now.key slot) self.old.latest (if (inc == self.old.state.inc) && has_epoch slot.lease epoch then ack_row self.old.state.terms.mode flow.now.key slot upto load.now else Stale))) }
    {
        if !self.owns(&slot, inc, epoch) {
            return Ok(self.stale(flow, slot));
        }
        match self.terms.mode {
            Mode::Strict => self.acked(flow, slot, upto, load),
            Mode::Snapshot(_) => Ok(self.round_acked(flow, slot, upto)),
        }
    }

    // The round that runs is done.
    #[tactic(auto, using(crate::proofs::Over::round_acked_is))]
    fn round_acked(&mut self, flow: &Flow, mut slot: Slot, upto: u64) -> SwitchDid
        requires term { self.old.state.terms.t_switch ≤ 1000000 }
        requires moment { self.old.latest ≤ 2 ^ 62 }
        requires place { IsPlaceOf self.old.state.slots flow.now.key flow.now.place }
        requires seen { IsSeenAt self.old.latest slot.lease }
        ensures { (self.new, result) ≡ stepped self.old (perform (with_slot self.old.state flow.now.key slot) self.old.latest (round_row flow.now.key slot upto slot.round)) }
    {
        match slot.round() {
            Some((number, begun)) if number == upto => {
                slot.extend(self.terms.t_switch, self.flows.latest(), begun);
                slot.round_done();
                self.put(flow, slot);
                SwitchDid::nothing(self.alloc)
            }
            _ => self.stale(flow, slot),
        }
    }

    // Removes the copies that an Ack covers, and releases the output that it brings.
    fn acked(
        &mut self,
        flow: &Flow,
        mut slot: Slot,
        upto: u64,
        load: &Option<Carried>,
    ) -> Result<SwitchDid, NoMemory>
        requires term { self.old.state.terms.t_switch ≤ 1000000 }
        requires moment { self.old.latest ≤ 2 ^ 62 }
        requires place { IsPlaceOf self.old.state.slots flow.now.key flow.now.place }
        requires seen { IsSeenAt self.old.latest slot.lease }
        ensures { IfOk result (λ did. (self.new, did) ≡ stepped self.old (after_acked (with_slot self.old.state flow.now.key slot) self.old.latest flow.now.key slot upto load.now)) }
    {
        let first = self.flows.acknowledge(flow, upto);
        self.extend(&mut slot, first);
        let out = slot.release(load)?;
        self.put(flow, slot);
        Ok(SwitchDid::released(self.alloc, out))
    }

    // The lease is extended by what was first sent at this moment, if copies went.
    fn extend(&self, slot: &mut Slot, first: Option<u64>)
        requires term { self.now.state.terms.t_switch ≤ 1000000 }
        requires moment { IfSome first (λ moment. moment ≤ 2 ^ 62) }
        requires seen { IsSeenAt self.now.latest slot.old.lease }
        ensures slot { slot.new ≡ record slot.old { lease = acked_by self.now.state.terms.t_switch self.now.latest slot.old.lease first } }
        ensures seen { IsSeenAt self.now.latest slot.new.lease }
    {
        if let Some(first) = first {
            slot.extend(self.terms.t_switch, self.flows.latest(), first);
        }
    }

    /// A Deny for a flow with a slot.
    pub(crate) fn on_deny(&mut self, flow: &Flow, inc: u64, epoch: u64) -> SwitchDid
        requires place { IsPlaceOf self.old.state.slots flow.now.key flow.now.place }
        ensures { (self.new, result) ≡ acts self.old (at_slot (slot_at self.old.state flow.now.key) (λ slot. if (inc == self.old.state.inc) && has_epoch slot.lease epoch then Denied flow.now.key slot else Stale)) }
    {
        let slot = self.take(flow);
        self.deny(flow, slot, inc, epoch)
    }

    // A Deny, by the lease of its slot, which was taken out.
    #[tactic(auto, using(crate::proofs::Over::idled_over))]
    fn deny(&mut self, flow: &Flow, slot: Slot, inc: u64, epoch: u64) -> SwitchDid
        requires place { IsPlaceOf self.old.state.slots flow.now.key flow.now.place }
        requires seen { IsSeenAt self.old.latest slot.lease }
        ensures { (self.new, result) ≡ stepped self.old (perform (with_slot self.old.state flow.now.key slot) self.old.latest (if (inc == self.old.state.inc) && has_epoch slot.lease epoch then Denied flow.now.key slot else Stale)) }
    {
        if !self.owns(&slot, inc, epoch) {
            return self.stale(flow, slot);
        }
        self.make_idle(flow, slot);
        SwitchDid::nothing(self.alloc)
    }

    /// The slot, which was taken out, is Idle from now on, with nothing that waits.
    pub(crate) fn make_idle(&mut self, flow: &Flow, mut slot: Slot)
        requires place { IsPlaceOf self.old.state.slots flow.now.key flow.now.place }
        ensures { self.new ≡ record { state = idled self.old.state flow.now.key slot; latest = self.old.latest } }
    {
        slot.idle();
        self.flows.give_up(flow);
        self.put(flow, slot);
    }

    /// A Busy for a flow with a slot.
    pub(crate) fn on_busy(
        &mut self,
        flow: &Flow,
        inc: u64,
        nonce: u64,
        mark: Option<u64>,
    ) -> SwitchDid
        requires place { IsPlaceOf self.old.state.slots flow.now.key flow.now.place }
        ensures { (self.new, result) ≡ acts self.old (at_slot (slot_at self.old.state flow.now.key) (λ slot. if inc == self.old.state.inc then busy_row flow.now.key slot nonce mark slot.lease else Stale)) }
    {
        let slot = self.take(flow);
        self.busy(flow, slot, inc, nonce, mark)
    }

    // A Busy, by the lease of its slot, which was taken out.
    #[tactic(auto, using(crate::proofs::Over::busied_row))]
    fn busy(
        &mut self,
        flow: &Flow,
        mut slot: Slot,
        inc: u64,
        nonce: u64,
        mark: Option<u64>,
    ) -> SwitchDid
        requires place { IsPlaceOf self.old.state.slots flow.now.key flow.now.place }
        requires seen { IsSeenAt self.old.latest slot.lease }
        ensures { (self.new, result) ≡ stepped self.old (perform (with_slot self.old.state flow.now.key slot) self.old.latest (if inc == self.old.state.inc then busy_row flow.now.key slot nonce mark slot.lease else Stale)) }
    {
        let Some(mark) = mark else {
            return self.stale(flow, slot);
        };
        if inc == self.inc && is_asked(slot.lease(), nonce) && slot.asks_for(mark) {
            slot.forget_asked(mark);
            self.put(flow, slot);
            SwitchDid::dropped(self.alloc, mark, DropCause::Busy)
        } else {
            self.stale(flow, slot)
        }
    }

    /// A configuration is adopted if it is newer.
    ///
    /// # Errors
    /// `NoMemory`.
    pub(crate) fn on_config(&mut self, config: &Config) -> Result<SwitchDid, NoMemory>
        ensures { IfOk result (λ did. (self.new, did) ≡ acts self.old (if nat_lt self.old.state.config.number config.now.number then Adopts config.now else Stale)) }
    {
        if config.number <= self.config.number {
            return Ok(SwitchDid::stale(self.alloc));
        }
        self.config = Config {
            number: config.number,
            chain: config.chain.copy()?,
        };
        Ok(SwitchDid::nothing(self.alloc))
    }
}
