//! The world without its application: nodes, routes, frames and history.
ghost use Rattle.std.specs.Prelude.{◌≡◌, ◌≤◌, length, nat_le, slice_get, IfOk};
ghost use Rattle.proto_model.specs.World.{ReplicaNode as ReplicaValue, numbers_from, running_replicas};
ghost use Rattle.proto_model.specs.WorldStep.{believed_up, frames_full, next_from, runs_at_replica, runs_at_switch, runs_now};
ghost use Rattle.world_state.specs.Nodes.{replica_nodes};
ghost use Rattle.world_state.specs.Waiting.{AreCursors};
ghost use Rattle.world_state.specs.WorldStates.{world_of};

use crate::cursors::Cursors;
use crate::nodes::{ReplicaNode, Replicas, Switches};
use crate::passing::Passed;
use proto_data::{FRAMES, MESSAGES};
use proto_model::{Msg, Terms};
use reroute::Router;
use rp_base::{NoMemory, Node};
use run_history::History;
use sent_frames::Frames;
use std::alloc::Global;

/// A world, without its application.
#[derive(Drop)]
pub struct WorldState {
    pub(crate) terms: Terms,
    /// Whether frames go over a link.
    pub(crate) linked: bool,
    /// How many cells a flow has.
    pub(crate) cells: u16,
    pub(crate) switches: Switches,
    pub(crate) replicas: Replicas,
    pub(crate) router: Router,
    pub(crate) frames: Frames,
    pub(crate) passed: Passed,
    /// The number of the last event.
    pub(crate) event: u64,
    /// How many events and handed frames there were.
    pub(crate) calls: u64,
    pub(crate) history: History,
    /// From where the next frame is looked for.
    pub(crate) cursors: Cursors,
    pub(crate) alloc: Global,
}

// How many replicas run.
fn count_running(nodes: &[ReplicaNode]) -> usize
    requires few { length nodes.now ≤ 5 }
    ensures { result ≡ length (numbers_from (λ (n : ReplicaValue). n.runs) 0 (replica_nodes nodes.now)) }
{
    let mut count = 0;
    for node in nodes {
        if node.runs {
            count += 1;
        }
    }
    count
}

impl WorldState {
    /// Whether there is no room for the frames of one more event.
    pub(crate) fn frames_full(&self) -> bool
        ensures { result ≡ frames_full (world_of self.now) }
    {
        self.frames.len() > FRAMES - MESSAGES
    }

    // Whether a switch is there and runs.
    fn switch_runs(&self, n: u8) -> bool
        requires routed { length self.now.router.believed ≡ length self.now.switches }
        ensures { result ≡ runs_at_switch (slice_get (world_of self.now).switches n) }
    {
        match self.switches.get(n) {
            Some(node) => node.runs,
            None => false,
        }
    }

    // Whether a replica is there and runs.
    fn replica_runs(&self, n: u8) -> bool
        ensures { result ≡ runs_at_replica (slice_get (world_of self.now).replicas n) }
    {
        match self.replicas.get(n) {
            Some(node) => node.runs,
            None => false,
        }
    }

    /// Whether a node runs; one that isn't there doesn't, and neither does the master.
    pub fn runs(&self, node: Node) -> bool
        requires routed { length self.now.router.believed ≡ length self.now.switches }
        ensures { result ≡ runs_now (world_of self.now) node }
    {
        match node {
            Node::Switch(n) => self.switch_runs(n),
            Node::Replica(n) => self.replica_runs(n),
            Node::Master => false,
        }
    }

    /// Whether routing, or the configuration, holds a node to be up.
    pub(crate) fn believed_up(&self, node: Node) -> bool
        requires routed { length self.now.router.believed ≡ length self.now.switches }
        ensures { result ≡ believed_up (world_of self.now) node }
    {
        self.router.is_up(node)
    }

    /// Whether at most one replica runs.
    pub(crate) fn is_last_replica(&self) -> bool
        requires few { length self.now.replicas ≤ 5 }
        ensures { result ≡ nat_le (length (running_replicas (world_of self.now))) 1 }
    {
        count_running(self.replicas.as_slice()) <= 1
    }

    /// The frame that `next` takes, with its number: the first that isn't passed over and whose addressee runs.
    ///
    /// # Errors
    /// `NoMemory`.
    pub(crate) fn next_frame(&self) -> Result<Option<(u64, Msg)>, NoMemory>
        requires routed { length self.now.router.believed ≡ length self.now.switches }
        requires some { length (world_of self.now).switches ≤ 8 }
        requires few { length (world_of self.now).replicas ≤ 5 }
        requires cursors { AreCursors self.now.frames self.now.passed self.now.cursors }
        ensures { IfOk result (λ f. f ≡ next_from (world_of self.now) 0 self.now.frames) }
    {
        for i in self.first_place()..self.frames.len() {
            if !self.passed.has(i) && self.runs(self.frames.to(i)) {
                let msg = self.frames.at(i)?;
                return Ok(Some((i as u64, msg)));
            }
        }
        Ok(None)
    }
}
