//! Links in memory: what was sent to a node waits until it is received.
ghost use Rattle.std.specs.Prelude.{◌≡◌, ◌++◌, ◌∷◌, [], Some, None, true, false, map, ◌↔◌, OnOk, OnErr, IsErrOf, Contains};
ghost use Rattle.std.specs.List.{position};
ghost use Rattle.rp_base.specs.declared.node.Node.{Node as NodeValue};
ghost use Rattle.rp_base.specs.Memory.{sending_of, receipt_of, queue_of, one_more, CountsFaults, Joins, Leaves};
ghost use Rattle.rp_base.specs.Nodes.{same_node};
ghost use Rattle.rp_base.specs.Outside.{HasCause};

use crate::bytes::Bytes;
use crate::node::Node;
use crate::outside::{Link, LinkEnd};
use std::alloc::Global;

/// A datagram with its sender and its addressee.
#[derive(Debug, Drop)]
pub struct Datagram {
    pub from: Node,
    pub to: Node,
    pub bytes: Bytes,
}

/// What a receive found.
#[derive(Debug, Drop)]
pub struct Receipt {
    pub node: Node,
    pub bytes: Option<Bytes>,
}

/// A datagram that its addressee hasn't received yet.
#[derive(Debug, Drop)]
pub struct Waiting {
    pub to: Node,
    pub bytes: Bytes,
}

/// The datagrams that were sent and received, and those that wait, in the order in which they came.
#[derive(Debug, Drop)]
pub struct Post {
    pub sent: Vec<Datagram>,
    pub received: Vec<Receipt>,
    pub waiting: Vec<Waiting>,
    pub alloc: Global,
}

// Whether two nodes are one.
fn same(a: Node, b: Node) -> bool
    ensures { result ≡ same_node a b }
{
    match (a, b) {
        (Node::Switch(n), Node::Switch(m)) => n == m,
        (Node::Replica(n), Node::Replica(m)) => n == m,
        (Node::Master, Node::Master) => true,
        _ => false,
    }
}

// The place of the first datagram for this node.
fn place_for(waiting: &[Waiting], node: Node) -> Option<usize>
    ensures { result ≡ position (λ w. same_node w.to node) waiting.now }
{
    waiting.iter().position(|w| same(w.to, node))
}

fn put(alloc: Global, waiting: &mut Vec<Waiting>, to: Node, frame: &[u8]) -> Result<(), LinkEnd>
    ensures ok { OnOk result (Joins to frame.now waiting.old.items waiting.new.items) }
    ensures err { OnErr result (waiting.new.items ≡ waiting.old.items) }
    ensures failed { IsErrOf result LinkEnd.Failed → ⊥ }
{
    let mut bytes = Bytes::new(alloc);
    bytes.append(frame).map_err(|_| LinkEnd::NoMemory)?;
    waiting
        .push(Waiting { to, bytes })
        .map_err(|_| LinkEnd::NoMemory)
}

impl Post {
    /// Nothing was sent. Takes no memory.
    pub fn new(alloc: Global) -> Post
        ensures sent { result.sent.items ≡ [] }
        ensures received { result.received.items ≡ [] }
        ensures waiting { result.waiting.items ≡ [] }
    {
        Post {
            sent: Vec::new(alloc),
            received: Vec::new(alloc),
            waiting: Vec::new(alloc),
            alloc,
        }
    }

    /// Lets a datagram wait for a node that no node of this link has sent.
    ///
    /// # Errors
    /// `LinkEnd::NoMemory`; nothing changes.
    pub fn slip_in(&mut self, to: Node, frame: &[u8]) -> Result<(), LinkEnd>
        ensures ok { OnOk result (Joins to frame.now self.old.waiting.items self.new.waiting.items) }
        ensures err { OnErr result (self.new.waiting.items ≡ self.old.waiting.items) }
        ensures failed { IsErrOf result LinkEnd.Failed → ⊥ }
        ensures sent { self.new.sent.items ≡ self.old.sent.items }
        ensures received { self.new.received.items ≡ self.old.received.items }
    {
        put(self.alloc, &mut self.waiting, to, frame)
    }

    fn send(&mut self, from: Node, to: Node, frame: &[u8]) -> Result<(), LinkEnd>
        ensures ok { OnOk result (self.new.sent.items ≡ self.old.sent.items ++ record { from = from; to = to; bytes = frame.now } ∷ []) }
        ensures waits { OnOk result (Joins to frame.now self.old.waiting.items self.new.waiting.items) }
        ensures err { OnErr result ((self.new.sent.items ≡ self.old.sent.items) × (self.new.waiting.items ≡ self.old.waiting.items)) }
        ensures failed { IsErrOf result LinkEnd.Failed → ⊥ }
        ensures received { self.new.received.items ≡ self.old.received.items }
    {
        let mut bytes = Bytes::new(self.alloc);
        bytes.append(frame).map_err(|_| LinkEnd::NoMemory)?;
        self.sent.reserve(1).map_err(|_| LinkEnd::NoMemory)?;
        put(self.alloc, &mut self.waiting, to, frame)?;
        self.sent
            .push(Datagram { from, to, bytes })
            .map_err(|_| LinkEnd::NoMemory)
    }

    fn note(&mut self, node: Node, bytes: Option<Bytes>) -> Result<(), LinkEnd>
        ensures ok { OnOk result (self.new.received.items ≡ self.old.received.items ++ record { node = node; bytes = bytes } ∷ []) }
        ensures err { OnErr result (self.new.received.items ≡ self.old.received.items) }
        ensures failed { IsErrOf result LinkEnd.Failed → ⊥ }
        ensures sent { self.new.sent.items ≡ self.old.sent.items }
        ensures waiting { self.new.waiting.items ≡ self.old.waiting.items }
    {
        self.received
            .push(Receipt { node, bytes })
            .map_err(|_| LinkEnd::NoMemory)
    }

    fn recv(&mut self, node: Node, into: &mut Bytes) -> Result<bool, LinkEnd>
        ensures some { result ≡ Ok true → self.new.received.items ≡ self.old.received.items ++ record { node = node; bytes = Some into.new } ∷ [] }
        ensures first { result ≡ Ok true → Leaves node into.new self.old.waiting.items self.new.waiting.items }
        ensures none { result ≡ Ok false → self.new.received.items ≡ self.old.received.items ++ record { node = node; bytes = None } ∷ [] }
        ensures nothing { result ≡ Ok false → queue_of node self.old.waiting.items ≡ [] }
        ensures empty { result ≡ Ok false → (into.new ≡ []) × (self.new.waiting.items ≡ self.old.waiting.items) }
        ensures err { OnErr result ((self.new.received.items ≡ self.old.received.items) × (into.new ≡ []) × (self.new.waiting.items ≡ self.old.waiting.items)) }
        ensures failed { IsErrOf result LinkEnd.Failed → ⊥ }
        ensures sent { self.new.sent.items ≡ self.old.sent.items }
    {
        into.clear();
        let i = match place_for(&self.waiting, node) {
            None => {
                self.note(node, None)?;
                return Ok(false);
            }
            Some(i) => i,
        };
        let bytes = self.waiting[i].bytes.copy().map_err(|_| LinkEnd::NoMemory)?;
        self.note(node, Some(bytes))?;
        *into = self.waiting.remove(i).bytes;
        Ok(true)
    }
}

/// A link without faults: what is sent to a node is received there, in order.
#[derive(Debug, Drop)]
pub struct SureLink {
    pub post: Post,
}

impl Link for SureLink {
    ghost sent = { λ s. Some (map sending_of s.post.sent.items) };

    ghost received = { λ s. Some (map receipt_of s.post.received.items) };

    ghost faults = { λ _. 0 };

    fn send(&mut self, from: Node, to: Node, frame: &[u8]) -> Result<(), LinkEnd>
        ensures ok { OnOk result (self.new.post.sent.items ≡ self.old.post.sent.items ++ record { from = from; to = to; bytes = frame.now } ∷ []) }
        ensures waits { OnOk result (Joins to frame.now self.old.post.waiting.items self.new.post.waiting.items) }
        ensures err { OnErr result ((self.new.post.sent.items ≡ self.old.post.sent.items) × (self.new.post.waiting.items ≡ self.old.post.waiting.items)) }
        ensures received { self.new.post.received.items ≡ self.old.post.received.items }
        ensures failed { IsErrOf result LinkEnd.Failed → ⊥ }
    {
        self.post.send(from, to, frame)
    }

    fn recv(&mut self, node: Node, into: &mut Bytes) -> Result<bool, LinkEnd>
        ensures some { result ≡ Ok true → self.new.post.received.items ≡ self.old.post.received.items ++ record { node = node; bytes = Some into.new } ∷ [] }
        ensures first { result ≡ Ok true → Leaves node into.new self.old.post.waiting.items self.new.post.waiting.items }
        ensures none { result ≡ Ok false → self.new.post.received.items ≡ self.old.post.received.items ++ record { node = node; bytes = None } ∷ [] }
        ensures nothing { result ≡ Ok false → queue_of node self.old.post.waiting.items ≡ [] }
        ensures empty { result ≡ Ok false → (into.new ≡ []) × (self.new.post.waiting.items ≡ self.old.post.waiting.items) }
        ensures err { OnErr result ((self.new.post.received.items ≡ self.old.post.received.items) × (into.new ≡ []) × (self.new.post.waiting.items ≡ self.old.post.waiting.items)) }
        ensures sent { self.new.post.sent.items ≡ self.old.post.sent.items }
        ensures failed { IsErrOf result LinkEnd.Failed → ⊥ }
    {
        self.post.recv(node, into)
    }
}

/// The same with faults: the calls whose numbers, from 0, are listed fail. Sends and receives are counted apart.
#[derive(Debug, Drop)]
pub struct MemLink {
    pub post: Post,
    pub failing_sends: Vec<u64>,
    pub failing_receives: Vec<u64>,
    pub sends: u64,
    pub receives: u64,
    pub faults: u64,
}

impl Link for MemLink {
    ghost sent = { λ s. Some (map sending_of s.post.sent.items) };

    ghost received = { λ s. Some (map receipt_of s.post.received.items) };

    ghost faults = { λ s. s.faults };

    fn send(&mut self, from: Node, to: Node, frame: &[u8]) -> Result<(), LinkEnd>
        ensures ok { OnOk result (self.new.post.sent.items ≡ self.old.post.sent.items ++ record { from = from; to = to; bytes = frame.now } ∷ []) }
        ensures waits { OnOk result (Joins to frame.now self.old.post.waiting.items self.new.post.waiting.items) }
        ensures err { OnErr result ((self.new.post.sent.items ≡ self.old.post.sent.items) × (self.new.post.waiting.items ≡ self.old.post.waiting.items)) }
        ensures received { self.new.post.received.items ≡ self.old.post.received.items }
        ensures cause { HasCause self.old.faults self.new.faults result LinkEnd.Failed }
        ensures listed { IsErrOf result LinkEnd.Failed ↔ Contains self.old.failing_sends.items self.old.sends }
        ensures counted { CountsFaults self.old.faults self.new.faults result LinkEnd.Failed }
        ensures sends { self.new.sends ≡ one_more self.old.sends }
        ensures receives { self.new.receives ≡ self.old.receives }
        ensures failing_sends { self.new.failing_sends ≡ self.old.failing_sends }
        ensures failing_receives { self.new.failing_receives ≡ self.old.failing_receives }
    {
        let call = self.sends;
        self.sends = self.sends.saturating_add(1);
        if self.failing_sends.contains(&call) {
            self.faults = self.faults.saturating_add(1);
            return Err(LinkEnd::Failed);
        }
        self.post.send(from, to, frame)
    }

    fn recv(&mut self, node: Node, into: &mut Bytes) -> Result<bool, LinkEnd>
        ensures some { result ≡ Ok true → self.new.post.received.items ≡ self.old.post.received.items ++ record { node = node; bytes = Some into.new } ∷ [] }
        ensures first { result ≡ Ok true → Leaves node into.new self.old.post.waiting.items self.new.post.waiting.items }
        ensures none { result ≡ Ok false → self.new.post.received.items ≡ self.old.post.received.items ++ record { node = node; bytes = None } ∷ [] }
        ensures nothing { result ≡ Ok false → queue_of node self.old.post.waiting.items ≡ [] }
        ensures empty { result ≡ Ok false → (into.new ≡ []) × (self.new.post.waiting.items ≡ self.old.post.waiting.items) }
        ensures err { OnErr result ((self.new.post.received.items ≡ self.old.post.received.items) × (into.new ≡ []) × (self.new.post.waiting.items ≡ self.old.post.waiting.items)) }
        ensures sent { self.new.post.sent.items ≡ self.old.post.sent.items }
        ensures cause { HasCause self.old.faults self.new.faults result LinkEnd.Failed }
        ensures listed { IsErrOf result LinkEnd.Failed ↔ Contains self.old.failing_receives.items self.old.receives }
        ensures counted { CountsFaults self.old.faults self.new.faults result LinkEnd.Failed }
        ensures receives { self.new.receives ≡ one_more self.old.receives }
        ensures sends { self.new.sends ≡ self.old.sends }
        ensures failing_sends { self.new.failing_sends ≡ self.old.failing_sends }
        ensures failing_receives { self.new.failing_receives ≡ self.old.failing_receives }
    {
        into.clear();
        let call = self.receives;
        self.receives = self.receives.saturating_add(1);
        if self.failing_receives.contains(&call) {
            self.faults = self.faults.saturating_add(1);
            return Err(LinkEnd::Failed);
        }
        self.post.recv(node, into)
    }
}
