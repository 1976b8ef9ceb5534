//! Alarms: what is due goes again, and leases that end soon are kept. An Alarm ends at the 64th message.
ghost use Rattle.std.specs.Prelude.{◌≡◌, ◌≤◌, ◌-◌, ◌+◌, ◌++◌, ◌∷◌, [], ◌^◌, IfOk, OnOk, drop, length, map, slice_get, take};
ghost use Rattle.key_table.specs.Table.{keys};
ghost use Rattle.proto_model.specs.SwitchAlarm.{alarm, repeated_ask, repeated_asks, resent_put, walk_order, walked_key, walked_slots};
ghost use Rattle.proto_data.specs.declared.limits.TheConstants.{MESSAGES};
ghost use Rattle.switch_core.specs.Walks.{CanWalk, ask_of, copies_again, walk_of};

use crate::did::SwitchDid;
use crate::going::Going;
use crate::switch::Switch;
use proto_data::Body;
use rp_base::{Key, NoMemory};
use switch_flows::PutCopy;
use switch_slot::{Slot, SlotLease};

impl Switch {
    ghost use Rattle.proto_model.specs.SwitchState.{slot_at};
    ghost use Rattle.switch_core.specs.States.{stepped};

    /// Takes an Alarm at the latest moment.
    ///
    /// # Errors
    /// `NoMemory`; then nothing is said of the switch.
    pub(crate) fn on_alarm(&mut self) -> Result<SwitchDid, NoMemory>
        requires moment { self.old.latest ≤ 2 ^ 62 }
        requires steady { CanWalk 1024 self.old }
        ensures { IfOk result (λ did. (self.new, did) ≡ stepped self.old (alarm self.old.state self.old.latest)) }
    {
        let mut going = Going::new(self.alloc);
        self.resend(&mut going)?;
        self.repeat_asks(&mut going)?;
        self.walk_all(&mut going)?;
        Ok(going.did())
    }

    // Copies that are due go again, in order of last sending, with the same number and delta and without an output.
    fn resend(&mut self, going: &mut Going) -> Result<(), NoMemory>
        ensures walk { OnOk result (walk_of self.new going.new ≡ copies_again self.old going.old) }
        ensures latest { OnOk result (self.new.latest ≡ self.old.latest) }
    {
        let due = self.flows.resend(self.terms.t_switch / 4)?;
        self.put_again(going, due)
    }

    // Each of these goes as a Put again.
    fn put_again(&self, going: &mut Going, due: Vec<PutCopy>) -> Result<(), NoMemory>
        ensures { OnOk result (going.new ≡ record { sent = going.old.sent ++ map (resent_put self.now.state) due.items; begun = going.old.begun }) }
    {
        for copy in due {
            self.send_again(going, copy)?;
        }
        Ok(())
    }

    // One copy goes as a Put again.
    fn send_again(&self, going: &mut Going, copy: PutCopy) -> Result<(), NoMemory>
        ensures { OnOk result (going.new ≡ record { sent = going.old.sent ++ resent_put self.now.state copy ∷ []; begun = going.old.begun }) }
    {
        going.send(self.to_head(Body::Put {
            inc: self.inc,
            epoch: self.flows.epoch(&copy.key),
            number: copy.number,
            key: copy.key,
            delta: copy.delta,
            load: None,
        }))
    }

    // Each young Ask goes again without a packet, in order of the slots.
    #[tactic(auto, using(crate::proofs::AlarmParts::asks_begin))]
    fn repeat_asks(&self, going: &mut Going) -> Result<(), NoMemory>
        requires term { self.now.state.terms.t_switch ≤ 1000000 }
        requires few { length going.old.sent ≤ MESSAGES }
        ensures { OnOk result (going.new ≡ record { sent = take MESSAGES (going.old.sent ++ repeated_asks self.now.state self.now.latest self.now.state.slots); begun = going.old.begun }) }
    {
        for place in 0..self.slot_count() {
            self.ask_at(going, place)?;
        }
        Ok(())
    }

    // The Ask of the slot at a place goes again if it is young, before the 64th message.
    #[tactic(auto, using(crate::proofs::AlarmParts::asks_begin, crate::proofs::AlarmParts::ask_there))]
    fn ask_at(&self, going: &mut Going, place: usize) -> Result<(), NoMemory>
        requires term { self.now.state.terms.t_switch ≤ 1000000 }
        requires few { length going.old.sent ≤ MESSAGES }
        ensures { OnOk result (going.new ≡ record { sent = take MESSAGES (going.old.sent ++ ask_of self.now.state self.now.latest (slice_get self.now.state.slots place)); begun = going.old.begun }) }
    {
        if going.is_full() {
            return Ok(());
        }
        match self.flows.at(place) {
            Some((key, slot)) => self.repeat_ask(going, key, slot),
            None => Ok(()),
        }
    }

    // The Ask of a slot goes again if it is young.
    fn repeat_ask(&self, going: &mut Going, key: Key, slot: &Slot) -> Result<(), NoMemory>
        requires { self.now.state.terms.t_switch ≤ 1000000 }
        ensures { OnOk result (going.new ≡ record { sent = going.old.sent ++ repeated_ask self.now.state self.now.latest key slot.now.lease; begun = going.old.begun }) }
    {
        let SlotLease::Asking(asking) = slot.lease() else {
            return Ok(());
        };
        if !asking.young(self.flows.latest(), self.terms.t_switch) {
            return Ok(());
        }
        going.send(self.to_head(Body::Ask {
            inc: self.inc,
            nonce: asking.nonce(),
            key,
            load: None,
        }))
    }

    // The slots in turn, from behind the one that last sent a Snap around to it.
    #[tactic(auto, using(crate::proofs::AlarmParts::can_less, crate::proofs::AlarmParts::can_few))]
    fn walk_all(&mut self, going: &mut Going) -> Result<(), NoMemory>
        requires moment { self.old.latest ≤ 2 ^ 62 }
        requires steady { CanWalk 1024 self.old }
        ensures walk { OnOk result (walk_of self.new going.new ≡ walked_slots (walk_of self.old going.old) self.old.latest (walk_order self.old.state.walked (keys self.old.state.slots))) }
        ensures latest { OnOk result (self.new.latest ≡ self.old.latest) }
    {
        let start = self.walk_start();
        let end = self.slot_count();
        self.walk(going, start, end)?;
        self.walk(going, 0, start)
    }

    // The place of the slot with which a walk begins: behind the one that last sent a Snap.
    #[tactic(auto, using(crate::proofs::Walks::order_at, crate::proofs::Walks::order_absent, crate::proofs::Walks::order_first, crate::proofs::Walks::place_within))]
    fn walk_start(&self) -> usize
        requires few { length self.now.state.slots ≤ 1024 }
        ensures order { walk_order self.now.state.walked (keys self.now.state.slots) ≡ drop result (keys self.now.state.slots) ++ take result (keys self.now.state.slots) }
        ensures within { result ≤ length self.now.state.slots }
    {
        match &self.walked {
            Some(key) => match self.flows.find(key) {
                Some(flow) => flow.place + 1,
                None => 0,
            },
            None => 0,
        }
    }

    // The slots from one place up to another, in turn.
    #[tactic(auto, using(crate::proofs::AlarmParts::walk_more, crate::proofs::AlarmParts::can_follow, crate::proofs::AlarmParts::take_short))]
    fn walk(&mut self, going: &mut Going, from: usize, to: usize) -> Result<(), NoMemory>
        requires moment { self.old.latest ≤ 2 ^ 62 }
        requires steady { CanWalk (to - from) self.old }
        requires range { from ≤ to }
        ensures walk { OnOk result (walk_of self.new going.new ≡ walked_slots (walk_of self.old going.old) self.old.latest (take (to - from) (drop from (keys self.old.state.slots)))) }
        ensures latest { OnOk result (self.new.latest ≡ self.old.latest) }
    {
        for place in from..to {
            self.walk_at(going, place)?;
        }
        Ok(())
    }

    // The slot at a place of the walk, before the 64th message.
    #[tactic(auto, using(crate::proofs::AlarmParts::walk_full, crate::proofs::AlarmParts::walk_there, crate::proofs::AlarmParts::no_key))]
    fn walk_at(&mut self, going: &mut Going, place: usize) -> Result<(), NoMemory>
        requires moment { self.old.latest ≤ 2 ^ 62 }
        requires steady { CanWalk 1 self.old }
        ensures walk { OnOk result (walk_of self.new going.new ≡ walked_slots (walk_of self.old going.old) self.old.latest (take 1 (drop place (keys self.old.state.slots)))) }
        ensures latest { OnOk result (self.new.latest ≡ self.old.latest) }
    {
        if going.is_full() {
            return Ok(());
        }
        match self.key_at(place) {
            Some(key) => self.keep_lease(going, &key),
            None => Ok(()),
        }
    }

    // The key of the slot at a place.
    #[tactic(auto, using(crate::proofs::AlarmParts::key_of_row))]
    fn key_at(&self, place: usize) -> Option<Key>
        ensures { slice_get (keys self.now.state.slots) place ≡ result }
    {
        match self.flows.at(place) {
            Some((key, _)) => Some(key),
            None => None,
        }
    }

    // One slot of the walk, if it has what to send.
    #[tactic(auto, using(crate::proofs::AlarmParts::kept_is, crate::proofs::AlarmParts::kept_last))]
    fn keep_lease(&mut self, going: &mut Going, key: &Key) -> Result<(), NoMemory>
        requires moment { self.old.latest ≤ 2 ^ 62 }
        requires steady { CanWalk 1 self.old }
        ensures walk { OnOk result (walk_of self.new going.new ≡ walked_key (walk_of self.old going.old) self.old.latest key.now (slot_at self.old.state key.now)) }
        ensures latest { OnOk result (self.new.latest ≡ self.old.latest) }
    {
        let Some(flow) = self.flows.find(key) else {
            return Ok(());
        };
        let slot = self.take(&flow);
        self.keep_slot(going, &flow, slot)
    }
}
