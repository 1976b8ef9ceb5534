//! Asks for a lease, each with a packet.
ghost use Rattle.std.specs.Prelude.{◌≡◌, ◌≤◌, ◌^◌, IfOk};
ghost use Rattle.switch_slot.specs.Leases.{IsSeenAt};
ghost use Rattle.switch_flows.specs.Places.{IsPlaceOf};

use crate::did::SwitchDid;
use crate::switch::Switch;
use proto_data::{Body, Carried};
use rp_base::{NoMemory, Packet};
use switch_flows::Flow;
use switch_slot::Slot;

impl Switch {
    ghost use Rattle.proto_model.specs.SwitchOutcomes.{after_ask_again, after_new_ask};
    ghost use Rattle.switch_core.specs.States.{stepped};

    /// Asks with the next nonce; nothing of the slot's that waited before. The slot was taken out.
    ///
    /// # Errors
    /// `NoMemory`.
    pub(crate) fn new_ask(
        &mut self,
        flow: &Flow,
        mut slot: Slot,
        packet: &Packet,
    ) -> Result<SwitchDid, NoMemory>
        requires moment { self.old.latest ≤ 2 ^ 62 }
        requires place { IsPlaceOf self.old.state.slots flow.now.key flow.now.place }
        requires room { self.old.state.nonces ≤ 2 ^ 63 }
        ensures { IfOk result (λ did. (self.new, did) ≡ stepped self.old (after_new_ask self.old.state self.old.latest flow.now.key slot packet.now)) }
    {
        self.nonces += 1;
        let body = Body::Ask {
            inc: self.inc,
            nonce: self.nonces,
            key: flow.key,
            load: Some(Carried::of_packet(packet)?),
        };
        slot.ask(self.nonces, self.flows.latest(), packet.mark)?;
        self.flows.give_up(flow);
        self.flows.put(flow, slot);
        SwitchDid::sent(self.alloc, self.to_head(body))
    }

    /// Another packet rides on the Ask of this nonce, which is under way. The slot was taken out.
    ///
    /// # Errors
    /// `NoMemory`.
    pub(crate) fn ask_again(
        &mut self,
        flow: &Flow,
        mut slot: Slot,
        nonce: u64,
        packet: &Packet,
    ) -> Result<SwitchDid, NoMemory>
        requires place { IsPlaceOf self.old.state.slots flow.now.key flow.now.place }
        requires seen { IsSeenAt self.old.latest slot.lease }
        ensures { IfOk result (λ did. (self.new, did) ≡ stepped self.old (after_ask_again self.old.state flow.now.key slot nonce packet.now)) }
    {
        let body = Body::Ask {
            inc: self.inc,
            nonce,
            key: flow.key,
            load: Some(Carried::of_packet(packet)?),
        };
        slot.ask_again(packet.mark)?;
        self.put(flow, slot);
        SwitchDid::sent(self.alloc, self.to_head(body))
    }
}
