//! From where `next` looks for the frames of each node: it meets a frame once for each node, and not at each call.
ghost use Rattle.std.specs.Prelude.{ℕ, ◌≡◌, ◌≤◌, ◌<◌, Some, if◌then◌else◌, length, min, replicate, slice_get, slice_set};
ghost use Rattle.proto_model.specs.WorldStep.{runs_now};
ghost use Rattle.world_state.specs.Waiting.{AreCursors, NoneTaken, NoneWaits, node_of, waits};
ghost use Rattle.world_state.specs.WorldStates.{world_of};

use crate::passing::Passed;
use crate::state::WorldState;
use rp_base::Node;
use sent_frames::Frames;
use std::marker::Model;

/// How many nodes there may be: 8 switches and 5 replicas.
const NODES: usize = 13;

/// For each node, switches first, a number below which no frame waits for it.
#[derive(Drop)]
pub(crate) struct Cursors {
    items: [usize; NODES],
}

impl Model for Cursors {
    ghost use Rattle.std.specs.Prelude.{◌≡◌, List, ℕ, length};

    ghost Value = { List ℕ };

    ghost view = { λ c. c.items };
}

impl Cursors {
    /// Each cursor stands at the first frame.
    pub(crate) fn new() -> Cursors
        ensures { result ≡ replicate 13 0 }
    {
        Cursors { items: [0; NODES] }
    }

    // The cursor in this place.
    fn at(&self, k: usize) -> usize
        requires { k < 13 }
        ensures { slice_get self.now k ≡ Some result }
    {
        self.items[k]
    }

    // The cursor in this place moves.
    fn set(&mut self, k: usize, at: usize)
        requires { k < 13 }
        ensures { self.new ≡ slice_set self.old k at }
    {
        self.items[k] = at;
    }
}

// The node of the cursor in this place.
fn node_of(k: usize) -> Node
    requires { k < 13 }
    ensures { result ≡ node_of k }
{
    if k < 8 {
        Node::Switch(k as u8)
    } else {
        Node::Replica((k - 8) as u8)
    }
}

// Whether the frame of this number waits for a node.
fn waits(frames: &Frames, passed: &Passed, to: Node, at: usize) -> bool
    requires { at < length frames.now }
    ensures { result ≡ waits frames.now passed.now to at }
{
    !passed.has(at) && frames.goes_to(at, to)
}

// The first frame from this number on that waits for a node.
fn first_waiting(frames: &Frames, passed: &Passed, to: Node, from: usize) -> usize
    requires { NoneWaits frames.now passed.now to from }
    ensures { NoneWaits frames.now passed.now to result }
{
    let mut at = from;
    while at < frames.len() && !waits(frames, passed, to, at) {
        at += 1;
    }
    at
}

impl WorldState {
    // The least of this number and of the cursor in this place, if the cursor's node runs.
    fn least_with(&self, least: usize, k: usize) -> usize
        requires place { k < 13 }
        requires routed { length self.now.router.believed ≡ length self.now.switches }
        ensures { (c : ℕ) → slice_get self.now.cursors k ≡ Some c → result ≡ (if runs_now (world_of self.now) (node_of k) then min least c else least) }
    {
        if self.runs(node_of(k)) {
            least.min(self.cursors.at(k))
        } else {
            least
        }
    }

    /// A number below which no frame waits for a node that runs: the least of their cursors.
    pub(crate) fn first_place(&self) -> usize
        requires routed { length self.now.router.believed ≡ length self.now.switches }
        requires some { length (world_of self.now).switches ≤ 8 }
        requires few { length (world_of self.now).replicas ≤ 5 }
        requires cursors { AreCursors self.now.frames self.now.passed self.now.cursors }
        ensures { NoneTaken (world_of self.now) self.now.frames result }
    {
        let mut least = self.frames.len();
        for k in 0..NODES {
            least = self.least_with(least, k);
        }
        least
    }

    // The cursor in this place goes on to its node's first waiting frame, if the node runs.
    fn settle_one(&mut self, k: usize)
        requires place { k < 13 }
        requires routed { length self.old.router.believed ≡ length self.old.switches }
        requires cursors { AreCursors self.old.frames self.old.passed self.old.cursors }
        ensures same { self.new ≡ record self.old { cursors = self.new.cursors } }
        ensures cursors { AreCursors self.old.frames self.old.passed self.new.cursors }
    {
        let to = node_of(k);
        if !self.runs(to) {
            return;
        }
        let from = self.cursors.at(k);
        let at = first_waiting(&self.frames, &self.passed, to, from);
        self.cursors.set(k, at);
    }

    /// The cursors of the nodes that run go on to their first waiting frames.
    pub(crate) fn settle(&mut self)
        requires routed { length self.old.router.believed ≡ length self.old.switches }
        requires cursors { AreCursors self.old.frames self.old.passed self.old.cursors }
        ensures same { self.new ≡ record self.old { cursors = self.new.cursors } }
        ensures cursors { AreCursors self.old.frames self.old.passed self.new.cursors }
    {
        for k in 0..NODES {
            self.settle_one(k);
        }
    }
}
