//! What an event comes to: a refusal by its first cause, or an act with all that it needs.
ghost use Rattle.std.specs.Prelude.{◌≡◌, ◌≤◌, ◌+◌, All, length, IfOk};
ghost use Rattle.rp_base.specs.declared.event.Event.{Event as EventValue};
ghost use Rattle.proto_model.specs.Routing.{picked};
ghost use Rattle.proto_model.specs.World.{believed_switches};
ghost use Rattle.proto_model.specs.WorldStep.{act_of, event_packet, feed_at, is_replica};
ghost use Rattle.world_state.specs.Acts.{meant, IsEventOf};
ghost use Rattle.world_state.specs.Waiting.{AreCursors};
ghost use Rattle.world_state.specs.WorldStates.{world_of};

use crate::state::WorldState;
use proto_model::Msg;
use rp_app::App;
use rp_base::{Advances, Bytes, Event, Key, NoMemory, Node, Packet, Refusal, rates_hold};

/// What an event does.
#[derive(Debug, Drop)]
pub(crate) enum Act {
    Refuses(Refusal),
    /// The packet arrives at this switch, which runs.
    Feeds { at: u8, packet: Packet },
    /// The frame of this number arrives at its addressee, which runs.
    Delivers { frame: u64, msg: Msg },
    Passes(u64),
    Advances(Advances),
    Alarms(Node),
    Stops(Node),
    Boots(u8),
    Detects(Node),
    Announces,
    Pumps,
}

impl WorldState {
    /// The act of an event; the world counts the event already.
    ///
    /// # Errors
    /// `NoMemory`.
    pub(crate) fn act<A: App>(&self, app: &A, e: &Event) -> Result<Act, NoMemory>
        requires event { IsEventOf (world_of self.now) e.now }
        requires routed { length self.now.router.believed ≡ length self.now.switches }
        requires few { length self.now.replicas ≤ 5 }
        requires ratio { self.now.terms.ratio ≤ 1000 }
        requires some { length (world_of self.now).switches ≤ 8 }
        requires few_too { length (world_of self.now).replicas ≤ 5 }
        requires cursors { AreCursors self.now.frames self.now.passed self.now.cursors }
        ensures { IfOk result (λ act. meant act ≡ act_of (A.meaning app.now) (world_of self.now) e.now) }
    {
        match e {
            Event::Feed { port, bytes } => self.feed_act(app, *port, bytes),
            Event::FeedAt { at, port, bytes } => self.feed_at_act(app, *at, *port, bytes),
            Event::Deliver(frame) => self.deliver_act(app, *frame),
            Event::Next => self.next_act(app),
            Event::Drop(frame) => Ok(self.drop_act(app, *frame)),
            Event::Time(by) => self.time_act(app, by),
            Event::Alarm(node) => Ok(self.alarm_act(app, *node)),
            Event::Fail(node) => Ok(self.fail_act(app, *node)),
            Event::Boot(n) => Ok(self.boot_act(app, *n)),
            Event::Detect(node) => Ok(self.detect_act(app, *node)),
            Event::Announce => Ok(self.announce_act(app)),
            Event::Pump => Ok(self.pump_act(app)),
        }
    }

    // The packet that this event feeds, at the switch that must take it.
    fn feeds(&self, at: u8, packet: Packet) -> Act
        requires routed { length self.now.router.believed ≡ length self.now.switches }
        ensures { meant result ≡ feed_at (world_of self.now) at packet }
    {
        if !self.runs(Node::Switch(at)) {
            return Act::Refuses(Refusal::Dead);
        }
        Act::Feeds { at, packet }
    }

    fn event_packet(&self, port: u16, bytes: &Bytes) -> Result<Packet, NoMemory>
        ensures { IfOk result (λ packet. packet ≡ event_packet (world_of self.now) port bytes.now) }
    {
        Ok(Packet {
            mark: self.event,
            port,
            bytes: bytes.copy()?,
        })
    }

    fn feed_act<A: App>(&self, app: &A, port: u16, bytes: &Bytes) -> Result<Act, NoMemory>
        requires routed { length self.now.router.believed ≡ length self.now.switches }
        ensures { IfOk result (λ act. meant act ≡ act_of (A.meaning app.now) (world_of self.now) (EventValue.Feed port bytes.now)) }
    {
        if self.frames_full() {
            return Ok(Act::Refuses(Refusal::FramesFull));
        }
        let packet = self.event_packet(port, bytes)?;
        let key = app.key_of(&packet)?;
        match self.pick(key) {
            None => Ok(Act::Refuses(Refusal::Nowhere)),
            Some(at) => Ok(self.feeds(at, packet)),
        }
    }

    // The switch for packets of a key, of those that are believed up.
    fn pick(&self, key: Option<Key>) -> Option<u8>
        requires routed { length self.now.router.believed ≡ length self.now.switches }
        ensures { result ≡ picked (believed_switches (world_of self.now)) key }
    {
        match key {
            Some(key) => self.router.pick(Some(&key)),
            None => self.router.pick(None),
        }
    }

    fn feed_at_act<A: App>(
        &self,
        _app: &A,
        at: u8,
        port: u16,
        bytes: &Bytes,
    ) -> Result<Act, NoMemory>
        requires routed { length self.now.router.believed ≡ length self.now.switches }
        ensures { IfOk result (λ act. meant act ≡ act_of (A.meaning _app.now) (world_of self.now) (EventValue.FeedAt at port bytes.now)) }
    {
        if self.frames_full() {
            return Ok(Act::Refuses(Refusal::FramesFull));
        }
        let packet = self.event_packet(port, bytes)?;
        Ok(self.feeds(at, packet))
    }

    fn deliver_act<A: App>(&self, _app: &A, frame: u64) -> Result<Act, NoMemory>
        requires routed { length self.now.router.believed ≡ length self.now.switches }
        ensures { IfOk result (λ act. meant act ≡ act_of (A.meaning _app.now) (world_of self.now) (EventValue.Deliver frame)) }
    {
        if self.frames_full() {
            return Ok(Act::Refuses(Refusal::FramesFull));
        }
        if self.linked {
            return Ok(Act::Refuses(Refusal::Linked));
        }
        match self.frames.message(frame as usize)? {
            None => Ok(Act::Refuses(Refusal::NoFrame)),
            Some(msg) => {
                if !self.runs(msg.to) {
                    return Ok(Act::Refuses(Refusal::Dead));
                }
                Ok(Act::Delivers { frame, msg })
            }
        }
    }

    fn next_act<A: App>(&self, _app: &A) -> Result<Act, NoMemory>
        requires routed { length self.now.router.believed ≡ length self.now.switches }
        requires some { length (world_of self.now).switches ≤ 8 }
        requires few { length (world_of self.now).replicas ≤ 5 }
        requires cursors { AreCursors self.now.frames self.now.passed self.now.cursors }
        ensures { IfOk result (λ act. meant act ≡ act_of (A.meaning _app.now) (world_of self.now) EventValue.Next) }
    {
        if self.frames_full() {
            return Ok(Act::Refuses(Refusal::FramesFull));
        }
        if self.linked {
            return Ok(Act::Refuses(Refusal::Linked));
        }
        match self.next_frame()? {
            None => Ok(Act::Refuses(Refusal::NoneLeft)),
            Some((frame, msg)) => Ok(Act::Delivers { frame, msg }),
        }
    }

    fn drop_act<A: App>(&self, _app: &A, frame: u64) -> Act
        ensures { meant result ≡ act_of (A.meaning _app.now) (world_of self.now) (EventValue.Drop frame) }
    {
        if self.linked {
            return Act::Refuses(Refusal::Linked);
        }
        if frame >= self.frames.len() as u64 {
            return Act::Refuses(Refusal::NoFrame);
        }
        Act::Passes(frame)
    }

    fn time_act<A: App>(&self, _app: &A, by: &Advances) -> Result<Act, NoMemory>
        requires count { length by.now ≡ length (world_of self.now).switches + length (world_of self.now).replicas }
        requires advances { All (λ x. x ≤ 1000000000) by.now }
        requires ratio { self.now.terms.ratio ≤ 1000 }
        ensures { IfOk result (λ act. meant act ≡ act_of (A.meaning _app.now) (world_of self.now) (EventValue.Time by.now)) }
    {
        if !rates_hold(by.as_slice(), self.terms.ratio) {
            return Ok(Act::Refuses(Refusal::Rates));
        }
        Ok(Act::Advances(by.copy()?))
    }

    fn alarm_act<A: App>(&self, _app: &A, node: Node) -> Act
        requires routed { length self.now.router.believed ≡ length self.now.switches }
        ensures { meant result ≡ act_of (A.meaning _app.now) (world_of self.now) (EventValue.Alarm node) }
    {
        if self.frames_full() {
            return Act::Refuses(Refusal::FramesFull);
        }
        if !self.runs(node) {
            return Act::Refuses(Refusal::Dead);
        }
        Act::Alarms(node)
    }

    fn fail_act<A: App>(&self, _app: &A, node: Node) -> Act
        requires routed { length self.now.router.believed ≡ length self.now.switches }
        requires few { length self.now.replicas ≤ 5 }
        ensures { meant result ≡ act_of (A.meaning _app.now) (world_of self.now) (EventValue.Fail node) }
    {
        if !self.runs(node) {
            return Act::Refuses(Refusal::Dead);
        }
        if is_replica(node) && self.is_last_replica() {
            return Act::Refuses(Refusal::LastReplica);
        }
        Act::Stops(node)
    }

    fn boot_act<A: App>(&self, _app: &A, n: u8) -> Act
        requires routed { length self.now.router.believed ≡ length self.now.switches }
        ensures { meant result ≡ act_of (A.meaning _app.now) (world_of self.now) (EventValue.Boot n) }
    {
        if self.runs(Node::Switch(n)) {
            return Act::Refuses(Refusal::Alive);
        }
        Act::Boots(n)
    }

    fn detect_act<A: App>(&self, _app: &A, node: Node) -> Act
        requires routed { length self.now.router.believed ≡ length self.now.switches }
        ensures { meant result ≡ act_of (A.meaning _app.now) (world_of self.now) (EventValue.Detect node) }
    {
        let runs = self.runs(node);
        let up = self.believed_up(node);
        if runs && up {
            return Act::Refuses(Refusal::Alive);
        }
        if !runs && !up {
            return Act::Refuses(Refusal::Known);
        }
        Act::Detects(node)
    }

    fn announce_act<A: App>(&self, _app: &A) -> Act
        ensures { meant result ≡ act_of (A.meaning _app.now) (world_of self.now) EventValue.Announce }
    {
        if self.frames_full() {
            return Act::Refuses(Refusal::FramesFull);
        }
        Act::Announces
    }

    fn pump_act<A: App>(&self, _app: &A) -> Act
        ensures { meant result ≡ act_of (A.meaning _app.now) (world_of self.now) EventValue.Pump }
    {
        if self.frames_full() {
            return Act::Refuses(Refusal::FramesFull);
        }
        if !self.linked {
            return Act::Refuses(Refusal::NoLink);
        }
        Act::Pumps
    }
}

// Whether a node is a replica.
fn is_replica(node: Node) -> bool
    ensures { result ≡ is_replica node }
{
    match node {
        Node::Replica(_) => true,
        Node::Switch(_) | Node::Master => false,
    }
}
