//! Packets: asked for, processed or dropped.
ghost use Rattle.std.specs.Prelude.{◌≡◌, ◌≤◌, ◌<◌, ◌^◌, [], None, All, IfOk, length, nat_lt, if◌then◌else◌, true};
ghost use Rattle.rp_app.specs.Application.{cells_named, zeros};
ghost use Rattle.key_table.specs.Table.{get};
ghost use Rattle.proto_model.specs.Slot.{fresh_slot};
ghost use Rattle.proto_model.specs.SwitchRow.{NewAsk, NoRoom, is_clean, leased_row, process_row};
ghost use Rattle.proto_safety.specs.Sizes.{is_leased};
ghost use Rattle.switch_slot.specs.Leases.{IsSeenAt};
ghost use Rattle.switch_flows.specs.Places.{IsPlaceOf};
ghost use Rattle.switch_core.specs.States.{AreUpTo, IsTaken};

use crate::did::{Item, SwitchDid};
use crate::leases::live_epoch;
use crate::switch::Switch;
use proto_data::{Body, COPIES, Carried, Mode, SLOTS};
use rp_app::{App, Delta};
use rp_base::{Cells, DropCause, Key, NoMemory, Output, Packet};
use switch_flows::Flow;
use switch_slot::{Slot, SlotLease};

// Whether a packet wrote nothing.
fn wrote_nothing(delta: &Delta) -> bool
    ensures { result ≡ is_clean delta.now }
{
    match delta.as_slice() {
        [] => true,
        _ => false,
    }
}

impl Switch {
    ghost use Rattle.proto_data.specs.declared.terms.Mode.{Mode as ModeValue};
    ghost use Rattle.proto_model.specs.SwitchState.{only_released};
    ghost use Rattle.proto_model.specs.SwitchOutcomes.{after_direct, after_mirrored};
    ghost use Rattle.switch_core.specs.States.{acts, stepped};

    /// A packet without a key: its plain output is released.
    ///
    /// # Errors
    /// `NoMemory`.
    pub(crate) fn keyless<A: App>(
        &mut self,
        app: &A,
        packet: &Packet,
    ) -> Result<SwitchDid, NoMemory>
        ensures state { self.new ≡ self.old }
        ensures did { IfOk result (λ did. did ≡ only_released ((A.meaning app.now).plain (zeros (A.meaning app.now).cell_count) packet.now).1) }
    {
        let cells = Cells::zeros(self.alloc, app.cells())?;
        let mut delta = Delta::new(self.alloc);
        let out = app.step(&cells, packet, &mut delta)?;
        Ok(SwitchDid::released(self.alloc, out))
    }

    /// A packet with a key that has no slot.
    ///
    /// # Errors
    /// `NoMemory`.
    #[tactic(auto, using(crate::proofs::Turns::asks_unknown))]
    pub(crate) fn unknown(&mut self, key: &Key, packet: &Packet) -> Result<SwitchDid, NoMemory>
        requires none { get self.old.state.slots key.now ≡ None }
        requires moment { self.old.latest ≤ 2 ^ 62 }
        requires room { self.old.state.nonces ≤ 2 ^ 62 }
        ensures { IfOk result (λ did. (self.new, did) ≡ acts self.old (if nat_lt (length self.old.state.slots) SLOTS then NewAsk key.now fresh_slot packet.now else NoRoom packet.now.mark)) }
    {
        if self.flows.len() >= SLOTS {
            return Ok(SwitchDid::dropped(self.alloc, packet.mark, DropCause::Full));
        }
        let flow = self.make(*key)?;
        self.new_ask(&flow, Slot::fresh(self.alloc), packet)
    }

    /// A packet with a key, by the lease of its slot, which was taken out.
    ///
    /// # Errors
    /// `NoMemory`.
    pub(crate) fn leased<A: App>(
        &mut self,
        app: &A,
        flow: &Flow,
        slot: Slot,
        packet: &Packet,
    ) -> Result<SwitchDid, NoMemory>
        requires moment { self.old.latest ≤ 2 ^ 62 }
        requires term { self.old.state.terms.t_switch ≤ 1000000 }
        requires nonces { self.old.state.nonces ≤ 2 ^ 62 }
        requires place { IsPlaceOf self.old.state.slots flow.now.key flow.now.place }
        requires seen { IsSeenAt self.old.latest slot.lease }
        requires taken { IsTaken (A.meaning app.now).cell_count flow.now.key self.old.state.copies slot }
        ensures { IfOk result (λ did. (self.new, did) ≡ acts self.old (leased_row (A.meaning app.now) self.old.state self.old.latest flow.now.key slot packet.now slot.lease)) }
    {
        let now = self.flows.latest();
        match slot.lease() {
            SlotLease::Idle(_) | SlotLease::Lapsed(_) => self.new_ask(flow, slot, packet),
            SlotLease::Asking(asking) => {
                if asking.young(now, self.terms.t_switch) {
                    let nonce = asking.nonce();
                    self.ask_again(flow, slot, nonce, packet)
                } else {
                    self.new_ask(flow, slot, packet)
                }
            }
            SlotLease::Held(held) => {
                let epoch = live_epoch(held, now);
                self.process(app, flow, slot, epoch, packet)
            }
        }
    }

    /// Processes a packet in a Held slot, which was taken out.
    ///
    /// # Errors
    /// `NoMemory`.
    pub(crate) fn process<A: App>(
        &mut self,
        app: &A,
        flow: &Flow,
        slot: Slot,
        epoch: u64,
        packet: &Packet,
    ) -> Result<SwitchDid, NoMemory>
        requires place { IsPlaceOf self.old.state.slots flow.now.key flow.now.place }
        requires seen { IsSeenAt self.old.latest slot.lease }
        requires leased { is_leased slot.lease ≡ true }
        requires cells { length slot.cells ≡ (A.meaning app.now).cell_count }
        requires room { slot.last ≤ 2 ^ 62 }
        requires numbers { AreUpTo flow.now.key slot.last self.old.state.copies }
        ensures { IfOk result (λ did. (self.new, did) ≡ acts self.old (process_row self.old.state.terms.mode self.old.state self.old.latest flow.now.key slot epoch packet.now.mark ((A.meaning app.now).plain slot.cells packet.now))) }
    {
        match self.terms.mode {
            Mode::Strict => self.process_strictly(app, flow, slot, epoch, packet),
            Mode::Snapshot(bound) => self.process_at_once(app, flow, slot, epoch, packet, bound),
        }
    }

    // In strict mode an update's output rides on its Put.
    fn process_strictly<A: App>(
        &mut self,
        app: &A,
        flow: &Flow,
        slot: Slot,
        epoch: u64,
        packet: &Packet,
    ) -> Result<SwitchDid, NoMemory>
        requires place { IsPlaceOf self.old.state.slots flow.now.key flow.now.place }
        requires seen { IsSeenAt self.old.latest slot.lease }
        requires leased { is_leased slot.lease ≡ true }
        requires cells { length slot.cells ≡ (A.meaning app.now).cell_count }
        requires room { slot.last ≤ 2 ^ 62 }
        requires numbers { AreUpTo flow.now.key slot.last self.old.state.copies }
        ensures { IfOk result (λ did. (self.new, did) ≡ acts self.old (process_row ModeValue.Strict self.old.state self.old.latest flow.now.key slot epoch packet.now.mark ((A.meaning app.now).plain slot.cells packet.now))) }
    {
        if self.flows.copy_count() >= COPIES {
            self.put(flow, slot);
            return Ok(SwitchDid::dropped(self.alloc, packet.mark, DropCause::Mirror));
        }
        let mut delta = Delta::new(self.alloc);
        let out = app.step(slot.cells(), packet, &mut delta)?;
        if wrote_nothing(&delta) && !self.flows.has_copies(flow) {
            self.direct(flow, slot, epoch, packet.mark, &delta, out)
        } else {
            self.mirror(flow, slot, epoch, packet.mark, delta, out)
        }
    }

    // In snapshot mode every output leaves at once, while what the last round lacks is young enough.
    fn process_at_once<A: App>(
        &mut self,
        app: &A,
        flow: &Flow,
        mut slot: Slot,
        epoch: u64,
        packet: &Packet,
        bound: u64,
    ) -> Result<SwitchDid, NoMemory>
        requires place { IsPlaceOf self.old.state.slots flow.now.key flow.now.place }
        requires seen { IsSeenAt self.old.latest slot.lease }
        requires leased { is_leased slot.lease ≡ true }
        requires cells { length slot.cells ≡ (A.meaning app.now).cell_count }
        ensures { IfOk result (λ did. (self.new, did) ≡ acts self.old (process_row (ModeValue.Snapshot bound) self.old.state self.old.latest flow.now.key slot epoch packet.now.mark ((A.meaning app.now).plain slot.cells packet.now))) }
    {
        let now = self.flows.latest();
        if !slot.may(now, bound) {
            self.put(flow, slot);
            return Ok(SwitchDid::dropped(self.alloc, packet.mark, DropCause::Bound));
        }
        let mut delta = Delta::new(self.alloc);
        let out = app.step(slot.cells(), packet, &mut delta)?;
        slot.age(now, &delta);
        self.direct(flow, slot, epoch, packet.mark, &delta, out)
    }

    // A processed packet whose output leaves at once.
    fn direct(
        &mut self,
        flow: &Flow,
        mut slot: Slot,
        epoch: u64,
        mark: u64,
        delta: &Delta,
        out: Option<Output>,
    ) -> Result<SwitchDid, NoMemory>
        requires place { IsPlaceOf self.old.state.slots flow.now.key flow.now.place }
        requires seen { IsSeenAt self.old.latest slot.lease }
        requires leased { is_leased slot.lease ≡ true }
        requires cells { All (λ c. c < length slot.cells) (cells_named delta.now) }
        ensures { IfOk result (λ did. (self.new, did) ≡ stepped self.old (after_direct self.old.state self.old.latest flow.now.key slot epoch mark delta.now out)) }
    {
        slot.write(delta);
        let mut did = SwitchDid::released(self.alloc, out);
        did.item = Some(Item {
            key: flow.key,
            epoch,
            mark,
            number: slot.last(),
            moment: self.flows.latest(),
            dirty: !wrote_nothing(delta),
        });
        self.put(flow, slot);
        Ok(did)
    }

    // A processed packet whose output rides on a Put.
    fn mirror(
        &mut self,
        flow: &Flow,
        mut slot: Slot,
        epoch: u64,
        mark: u64,
        delta: Delta,
        out: Option<Output>,
    ) -> Result<SwitchDid, NoMemory>
        requires place { IsPlaceOf self.old.state.slots flow.now.key flow.now.place }
        requires seen { IsSeenAt self.old.latest slot.lease }
        requires leased { is_leased slot.lease ≡ true }
        requires cells { All (λ c. c < length slot.cells) (cells_named delta) }
        requires room { slot.last ≤ 2 ^ 62 }
        requires numbers { AreUpTo flow.now.key slot.last self.old.state.copies }
        requires free { length self.old.state.copies < 1024 }
        ensures { IfOk result (λ did. (self.new, did) ≡ stepped self.old (after_mirrored self.old.state self.old.latest flow.now.key slot epoch mark delta out)) }
    {
        slot.mirror(&delta, &out)?;
        let number = slot.last();
        let dirty = !wrote_nothing(&delta);
        self.flows.keep(flow, number, delta.copy()?)?;
        self.put(flow, slot);
        let body = Body::Put {
            inc: self.inc,
            epoch,
            number,
            key: flow.key,
            delta,
            load: out.map(Carried::of_output),
        };
        let mut did = SwitchDid::sent(self.alloc, self.to_head(body))?;
        did.item = Some(Item {
            key: flow.key,
            epoch,
            mark,
            number,
            moment: self.flows.latest(),
            dirty,
        });
        Ok(did)
    }
}
