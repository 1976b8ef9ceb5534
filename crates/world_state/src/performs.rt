//! What an act does to a world.
ghost use Rattle.std.specs.Prelude.{◌≡◌, ◌≤◌, ◌+◌, All, length, IfOk};
ghost use Rattle.std.specs.List.{AllByRecursion};
ghost use Rattle.rp_base.specs.declared.node.Node.{Node as NodeValue};
ghost use Rattle.proto_model.specs.WorldStep.{Announces, Delivers, Feeds};
ghost use Rattle.world_state.specs.Acts.{meant};
ghost use Rattle.sent_frames.specs.Frames.{IsSendable};
ghost use Rattle.world_state.specs.Steps.{IsAble, CanDo, node_goes, boots, detects, goes, later, passes, quiet, stops};

use crate::acts::Act;
use crate::nodes::SwitchNode;
use crate::sending::send;
use crate::state::WorldState;
use crate::turns::{tell_replica, tell_switch};
use proto_model::{Input, Msg};
use rp_app::App;
use rp_base::{Advances, Lines, NoMemory, Node, Packet};
use run_history::refused;

impl WorldState {
    // A switch takes an input, if it is there.
    fn switch_takes<A: App>(&mut self, app: &A, n: u8, input: &Input) -> Result<Lines, NoMemory>
        requires able { IsAble (A.meaning app.now) self.old }
        requires sent { AllByRecursion IsSendable (node_goes (A.meaning app.now) self.old (NodeValue.Switch n) input.now).0.frames }
        ensures { IfOk result (λ lines. (self.new, lines) ≡ node_goes (A.meaning app.now) self.old (NodeValue.Switch n) input.now) }
    {
        let Some(did) = self.switches.take(app, n, input)? else {
            return Ok(Lines::new(self.alloc));
        };
        tell_switch(
            self.alloc,
            self.event,
            &mut self.frames,
            &mut self.history,
            did,
        )
    }

    // A replica takes an input, if it is there.
    fn replica_takes<A: App>(&mut self, _app: &A, n: u8, input: &Input) -> Result<Lines, NoMemory>
        requires able { IsAble (A.meaning _app.now) self.old }
        requires sent { AllByRecursion IsSendable (node_goes (A.meaning _app.now) self.old (NodeValue.Replica n) input.now).0.frames }
        ensures { IfOk result (λ lines. (self.new, lines) ≡ node_goes (A.meaning _app.now) self.old (NodeValue.Replica n) input.now) }
    {
        let Some(said) = self.replicas.take(n, self.event, input)? else {
            return Ok(Lines::new(self.alloc));
        };
        tell_replica(self.alloc, self.event, &mut self.frames, said)
    }

    // A node takes an input.
    fn takes<A: App>(&mut self, app: &A, node: Node, input: &Input) -> Result<Lines, NoMemory>
        requires able { IsAble (A.meaning app.now) self.old }
        requires sent { AllByRecursion IsSendable (node_goes (A.meaning app.now) self.old node input.now).0.frames }
        ensures { IfOk result (λ lines. (self.new, lines) ≡ node_goes (A.meaning app.now) self.old node input.now) }
    {
        match node {
            Node::Switch(n) => self.switch_takes(app, n, input),
            Node::Replica(n) => self.replica_takes(app, n, input),
            Node::Master => Ok(Lines::new(self.alloc)),
        }
    }

    // The clocks go on, switches first.
    fn advance<A: App>(&mut self, _app: &A, by: &Advances) -> Lines
        requires able { IsAble (A.meaning _app.now) self.old }
        requires count { length by.now ≡ length self.old.switches + length self.old.replicas }
        requires advances { All (λ x. x ≤ 1000000000) by.now }
        ensures { (self.new, result) ≡ quiet (later self.old by.now) }
    {
        let (first, rest) = by.as_slice().split_at(self.switches.len());
        self.switches.advance(first);
        self.replicas.advance(rest);
        Lines::new(self.alloc)
    }

    // A node stops.
    fn stop(&mut self, node: Node) -> Lines
        ensures { (self.new, result) ≡ quiet (stops self.old node) }
    {
        match node {
            Node::Switch(n) => self.switches.stop(n),
            Node::Replica(n) => self.replicas.stop(n),
            Node::Master => (),
        }
        Lines::new(self.alloc)
    }

    // A switch begins empty, with the next incarnation and the present configuration.
    fn boot<A: App>(&mut self, _app: &A, n: u8) -> Result<Lines, NoMemory>
        requires able { IsAble (A.meaning _app.now) self.old }
        ensures { IfOk result (λ lines. (self.new, lines) ≡ quiet (boots self.old n)) }
    {
        let Some(node) = self.switches.get(n) else {
            return Ok(Lines::new(self.alloc));
        };
        let (me, inc) = (node.state.me(), node.state.inc());
        let begun = SwitchNode::begun(
            self.alloc,
            node.clock,
            me,
            inc + 1,
            self.cells,
            &self.terms,
            self.router.config(),
        )?;
        self.switches.set(n, begun);
        Ok(Lines::new(self.alloc))
    }

    // The view of a node becomes true; where it is true already, nothing changes.
    fn detect(&mut self, node: Node) -> Lines
        requires routed { length self.old.router.believed ≡ length self.old.switches }
        ensures { (self.new, result) ≡ quiet (detects self.old node) }
    {
        let runs = self.runs(node);
        let _ = self.router.detect(node, runs);
        Lines::new(self.alloc)
    }

    // A packet is fed to a switch.
    fn feed<A: App>(&mut self, app: &A, at: u8, packet: Packet) -> Result<Lines, NoMemory>
        requires able { IsAble (A.meaning app.now) self.old }
        requires sent { AllByRecursion IsSendable (goes (A.meaning app.now) self.old (Feeds at packet)).0.frames }
        ensures { IfOk result (λ lines. (self.new, lines) ≡ goes (A.meaning app.now) self.old (Feeds at packet)) }
    {
        self.history.push_fed(self.event, packet.copy()?)?;
        self.takes(app, Node::Switch(at), &Input::Packet(packet))
    }

    // A frame arrives at its addressee.
    pub(crate) fn deliver<A: App>(
        &mut self,
        app: &A,
        frame: u64,
        msg: Msg,
    ) -> Result<Lines, NoMemory>
        requires able { IsAble (A.meaning app.now) self.old }
        requires sent { AllByRecursion IsSendable (goes (A.meaning app.now) self.old (Delivers frame msg)).0.frames }
        ensures { IfOk result (λ lines. (self.new, lines) ≡ goes (A.meaning app.now) self.old (Delivers frame msg)) }
    {
        self.passed.push(frame)?;
        self.takes(app, msg.to, &Input::Msg(msg))
    }

    // `next` passes a frame over from now on.
    fn pass(&mut self, frame: u64) -> Result<Lines, NoMemory>
        ensures { IfOk result (λ lines. (self.new, lines) ≡ quiet (passes self.old frame)) }
    {
        self.passed.push(frame)?;
        Ok(Lines::new(self.alloc))
    }

    // The master sends its configuration to each running node.
    fn announce<A: App>(&mut self, _app: &A) -> Result<Lines, NoMemory>
        requires able { IsAble (A.meaning _app.now) self.old }
        requires sent { AllByRecursion IsSendable (goes (A.meaning _app.now) self.old Announces).0.frames }
        ensures { IfOk result (λ lines. (self.new, lines) ≡ goes (A.meaning _app.now) self.old Announces) }
    {
        let msgs = self.announcements()?;
        let mut lines = Lines::new(self.alloc);
        send(&mut lines, self.event, &mut self.frames, msgs.as_slice())?;
        Ok(lines)
    }

    /// Does what an act says.
    ///
    /// # Errors
    /// `NoMemory`; then nothing is said of the world.
    pub(crate) fn perform<A: App>(&mut self, app: &A, act: Act) -> Result<Lines, NoMemory>
        requires able { IsAble (A.meaning app.now) self.old }
        requires can { CanDo self.old (meant act) }
        requires sent { AllByRecursion IsSendable (goes (A.meaning app.now) self.old (meant act)).0.frames }
        ensures { IfOk result (λ lines. (self.new, lines) ≡ goes (A.meaning app.now) self.old (meant act)) }
    {
        match act {
            Act::Refuses(cause) => refused(self.alloc, self.event, cause),
            Act::Feeds { at, packet } => self.feed(app, at, packet),
            Act::Delivers { frame, msg } => self.deliver(app, frame, msg),
            Act::Passes(frame) => self.pass(frame),
            Act::Advances(by) => Ok(self.advance(app, &by)),
            Act::Alarms(node) => self.takes(app, node, &Input::Alarm),
            Act::Stops(node) => Ok(self.stop(node)),
            Act::Boots(n) => self.boot(app, n),
            Act::Detects(node) => Ok(self.detect(node)),
            Act::Announces => self.announce(app),
            Act::Pumps => Ok(Lines::new(self.alloc)),
        }
    }
}
