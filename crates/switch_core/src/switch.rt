//! A switch between two inputs: what it was opened with, its count of nonces, and its flows.
ghost use Rattle.std.specs.Prelude.{◌≡◌, ◌≤◌, ◌<◌, ◌^◌, length, None, Some, IfOk, OnOk};
ghost use Rattle.proto_model.specs.Slot.{fresh_slot};
ghost use Rattle.switch_slot.specs.Leases.{IsSeenAt};
ghost use Rattle.switch_flows.specs.Places.{IsPlaceOf};

use crate::did::SwitchDid;
use proto_data::{Body, Config, Input, Msg, Terms};
use rp_app::App;
use rp_base::{Key, NoMemory, Node, Packet};
use std::alloc::Global;
use std::marker::Model;
use switch_flows::{Flow, Flows};
use switch_slot::Slot;

/// A switch.
#[derive(Drop)]
pub(crate) struct Switch {
    pub(crate) me: u8,
    pub(crate) inc: u64,
    pub(crate) terms: Terms,
    pub(crate) config: Config,
    /// The nonces that were used: each is the count at its time.
    pub(crate) nonces: u64,
    /// The flow whose slot last sent a Snap in an Alarm.
    pub(crate) walked: Option<Key>,
    pub(crate) flows: Flows,
    pub(crate) alloc: Global,
}

impl Model for Switch {
    ghost use Rattle.switch_core.specs.States.{SwitchAt};

    ghost Value = { SwitchAt };

    ghost view = { λ s. record { state = record { me = s.me; inc = s.inc; terms = s.terms; config = s.config; nonces = s.nonces; slots = s.flows.slots; copies = s.flows.copies; walked = s.walked }; latest = s.flows.latest } };
}

impl Switch {
    ghost use Rattle.proto_model.specs.SwitchState.{lapsed, open_switch, slot_at, to_head, with_slot};
    ghost use Rattle.proto_model.specs.SwitchRow.{message_row, packet_row, switch_row};
    ghost use Rattle.switch_core.specs.States.{acts};
    ghost use Rattle.switch_core.specs.Steady.{IsSteady};

    /// A switch without slots, in its incarnation of this number.
    ///
    /// # Errors
    /// `NoMemory`.
    pub(crate) fn open(
        alloc: Global,
        me: u8,
        inc: u64,
        terms: &Terms,
        config: &Config,
    ) -> Result<Switch, NoMemory>
        ensures { IfOk result (λ made. made ≡ record { state = open_switch me inc terms.now config.now; latest = 0 }) }
    {
        Ok(Switch {
            me,
            inc,
            terms: *terms,
            config: Config {
                number: config.number,
                chain: config.chain.copy()?,
            },
            nonces: 0,
            walked: None,
            flows: Flows::open(alloc)?,
            alloc,
        })
    }

    /// The switch as it is seen at a moment of its clock.
    pub(crate) fn see(&mut self, now: u64)
        requires { self.old.latest ≤ now }
        ensures { self.new ≡ record { state = lapsed now self.old.state; latest = now } }
    {
        self.flows.see(now);
    }

    /// Takes the slot of a flow out; a fresh one keeps its place.
    pub(crate) fn take(&mut self, flow: &Flow) -> Slot
        requires { IsPlaceOf self.old.state.slots flow.now.key flow.now.place }
        ensures value { slot_at self.old.state flow.now.key ≡ Some result }
        ensures seen { IsSeenAt self.old.latest result.lease }
        ensures state { self.new ≡ record { state = with_slot self.old.state flow.now.key fresh_slot; latest = self.old.latest } }
        ensures place { IsPlaceOf self.new.state.slots flow.now.key flow.now.place }
    {
        self.flows.take(flow)
    }

    /// The slot of a flow from now on.
    pub(crate) fn put(&mut self, flow: &Flow, slot: Slot)
        requires place { IsPlaceOf self.old.state.slots flow.now.key flow.now.place }
        requires seen { IsSeenAt self.old.latest slot.lease }
        ensures { self.new ≡ record { state = with_slot self.old.state flow.now.key slot; latest = self.old.latest } }
    {
        self.flows.put(flow, slot);
    }

    /// Makes a slot for a flow that has none.
    ///
    /// # Errors
    /// `NoMemory`.
    pub(crate) fn make(&mut self, key: Key) -> Result<Flow, NoMemory>
        requires none { slot_at self.old.state key ≡ None }
        requires room { length self.old.state.slots < 1024 }
        ensures state { OnOk result (self.new ≡ record { state = with_slot self.old.state key fresh_slot; latest = self.old.latest }) }
        ensures key { IfOk result (λ flow. flow.key ≡ key) }
        ensures place { IfOk result (λ flow. IsPlaceOf self.new.state.slots flow.key flow.place) }
    {
        self.flows.make(key)
    }

    /// How many flows have a slot.
    pub(crate) fn slot_count(&self) -> usize
        ensures { result ≡ length self.now.state.slots }
    {
        self.flows.len()
    }

    /// A message to the head of the chain.
    pub(crate) fn to_head(&self, body: Body) -> Msg
        ensures { result ≡ to_head self.now.state body }
    {
        let to = match self.config.chain.as_slice() {
            [] => Node::Master,
            [first, ..] => Node::Replica(*first),
        };
        Msg {
            from: Node::Switch(self.me),
            to,
            body,
        }
    }

    /// Takes a packet, a message or an Alarm at the latest moment.
    ///
    /// # Errors
    /// `NoMemory`; then nothing is said of the switch.
    #[tactic(auto, using(crate::proofs::Turns::can_alarm))]
    pub(crate) fn on<A: App>(&mut self, app: &A, input: &Input) -> Result<SwitchDid, NoMemory>
        requires moment { self.old.latest ≤ 2 ^ 62 }
        requires steady { IsSteady (A.meaning app.now).cell_count (2 ^ 61) self.old.state }
        ensures { IfOk result (λ did. (self.new, did) ≡ acts self.old (switch_row (A.meaning app.now) self.old.state self.old.latest input.now)) }
    {
        match input {
            Input::Packet(packet) => self.on_packet(app, packet),
            Input::Msg(msg) => self.on_msg(app, msg),
            Input::Alarm => self.on_alarm(),
        }
    }

    // A packet, by its flow.
    fn on_packet<A: App>(&mut self, app: &A, packet: &Packet) -> Result<SwitchDid, NoMemory>
        requires moment { self.old.latest ≤ 2 ^ 62 }
        requires steady { IsSteady (A.meaning app.now).cell_count (2 ^ 61) self.old.state }
        ensures { IfOk result (λ did. (self.new, did) ≡ acts self.old (packet_row (A.meaning app.now) self.old.state self.old.latest packet.now ((A.meaning app.now).key_of packet.now))) }
    {
        let Some(key) = app.key_of(packet)? else {
            return self.keyless(app, packet);
        };
        match self.flows.find(&key) {
            Some(flow) => {
                let slot = self.take(&flow);
                self.leased(app, &flow, slot, packet)
            }
            None => self.unknown(&key, packet),
        }
    }

    // A message, by its kind and flow.
    fn on_msg<A: App>(&mut self, app: &A, msg: &Msg) -> Result<SwitchDid, NoMemory>
        requires moment { self.old.latest ≤ 2 ^ 62 }
        requires steady { IsSteady (A.meaning app.now).cell_count (2 ^ 61) self.old.state }
        ensures { IfOk result (λ did. (self.new, did) ≡ acts self.old (message_row (A.meaning app.now) self.old.state self.old.latest msg.now.body)) }
    {
        match &msg.body {
            Body::Grant {
                inc,
                nonce,
                epoch,
                key,
                cells,
                load,
            } => match self.flows.find(key) {
                Some(flow) => self.on_grant(app, &flow, *inc, *nonce, *epoch, cells, load),
                None => Ok(SwitchDid::stale(self.alloc)),
            },
            Body::Ack {
                inc,
                epoch,
                upto,
                key,
                load,
            } => match self.flows.find(key) {
                Some(flow) => self.on_ack(&flow, *inc, *epoch, *upto, load),
                None => Ok(SwitchDid::stale(self.alloc)),
            },
            Body::Deny { inc, epoch, key } => match self.flows.find(key) {
                Some(flow) => Ok(self.on_deny(&flow, *inc, *epoch)),
                None => Ok(SwitchDid::stale(self.alloc)),
            },
            Body::Busy {
                inc,
                nonce,
                key,
                mark,
            } => match self.flows.find(key) {
                Some(flow) => Ok(self.on_busy(&flow, *inc, *nonce, *mark)),
                None => Ok(SwitchDid::stale(self.alloc)),
            },
            Body::Config(config) => self.on_config(config),
            _ => Ok(SwitchDid::stale(self.alloc)),
        }
    }
}
