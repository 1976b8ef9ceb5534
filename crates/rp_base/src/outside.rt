//! What a program is handed: its inputs, a sink, a link between nodes and a clock.
ghost use Rattle.std.specs.Prelude.{◌≡◌, ◌≤◌, ◌+◌, ◌^◌, List, [], ◌∷◌, ℕ, length, Option, Some, None, true, false, take, IfOk, OnOk, OnErr};
ghost use Rattle.rp_base.specs.declared.node.Node.{Node as NodeValue};
ghost use Rattle.rp_base.specs.Outside.{HasCause, Grows, GrowsByFront, Loaded, TakesSome};

use crate::bytes::Bytes;
use crate::node::Node;

/// Why a content wasn't loaded.
#[derive(Clone, Copy, Debug, PartialEq, Eq)]
pub enum InputEnd {
    /// The inputs have counted a fault.
    Failed,
    NoMemory,
}

/// Named contents, which no call changes.
pub trait Inputs {
    /// The content of each name, where it is told.
    ghost contents: { Self → Option (List ℕ → Option (List ℕ)) };

    /// How often a call has failed. The count never falls.
    ghost faults: { Self → ℕ };

    /// Replaces `into` by the first `limit` + 1 bytes of the named content, or by all of a shorter one.
    ///
    /// # Errors
    /// `Failed` only where the count of faults rose in this call, also for a name that isn't there; `NoMemory`.
    /// After either `into` is empty.
    fn load(&mut self, name: &[u8], limit: u64, into: &mut Bytes) -> Result<(), InputEnd>
        ensures ok { OnOk result (Loaded (contents self.old) name.now limit into.new) }
        ensures size { OnOk result (length into.new ≤ limit + 1) }
        ensures err { OnErr result (into.new ≡ []) }
        ensures same { contents self.new ≡ contents self.old }
        ensures cause { HasCause (faults self.old) (faults self.new) result InputEnd.Failed };
}

/// A write failed, and the sink has counted a fault.
#[derive(Clone, Copy, Debug, PartialEq, Eq)]
pub struct Failed;

/// What is written to.
pub trait Sink {
    /// All bytes written, where they are told.
    ghost written: { Self → Option (List ℕ) };

    /// How often a call has failed. The count never falls.
    ghost faults: { Self → ℕ };

    /// Writes a front of the piece: at least one byte of a piece that isn't empty. Takes no memory.
    ///
    /// # Errors
    /// `Failed` only where the count of faults rose in this call; nothing was written.
    fn write(&mut self, piece: &[u8]) -> Result<usize, Failed>
        ensures some { IfOk result (λ n. TakesSome piece.now n) }
        ensures ok { IfOk result (λ n. Grows (written self.old) (written self.new) (take n piece.now)) }
        ensures err { OnErr result (Grows (written self.old) (written self.new) []) }
        ensures cause { HasCause (faults self.old) (faults self.new) result (record {}) };
}

/// Why a link did not send or receive.
#[derive(Clone, Copy, Debug, PartialEq, Eq)]
pub enum LinkEnd {
    /// The link has counted a fault.
    Failed,
    NoMemory,
}

/// Datagrams between nodes.
pub trait Link {
    /// The datagrams that were sent, with sender and addressee, where they are told.
    ghost sent: { Self → Option (List (NodeValue × NodeValue × List ℕ)) };

    /// A member for each call that received or found nothing.
    ghost received: { Self → Option (List (NodeValue × Option (List ℕ))) };

    /// How often a call has failed. The count never falls.
    ghost faults: { Self → ℕ };

    /// Hands over one datagram, which may still be lost.
    ///
    /// # Errors
    /// `Failed` only where the count of faults rose in this call; `NoMemory`. Neither adds to what is told.
    fn send(&mut self, from: Node, to: Node, frame: &[u8]) -> Result<(), LinkEnd>
        ensures ok { OnOk result (Grows (sent self.old) (sent self.new) ((from, to, frame.now) ∷ [])) }
        ensures err { OnErr result (sent self.new ≡ sent self.old) }
        ensures received { received self.new ≡ received self.old }
        ensures cause { HasCause (faults self.old) (faults self.new) result LinkEnd.Failed };

    /// Replaces `into` by one datagram for this node and answers true, or answers false where nothing was there.
    ///
    /// # Errors
    /// `Failed` only where the count of faults rose in this call; `NoMemory`. Neither adds to what is told.
    /// After false or a refusal `into` is empty.
    fn recv(&mut self, node: Node, into: &mut Bytes) -> Result<bool, LinkEnd>
        ensures some { result ≡ Ok true → Grows (received self.old) (received self.new) ((node, Some into.new) ∷ []) }
        ensures none { result ≡ Ok false → Grows (received self.old) (received self.new) ((node, None) ∷ []) }
        ensures empty { result ≡ Ok false → into.new ≡ [] }
        ensures err { OnErr result ((received self.new ≡ received self.old) × (into.new ≡ [])) }
        ensures sent { sent self.new ≡ sent self.old }
        ensures cause { HasCause (faults self.old) (faults self.new) result LinkEnd.Failed };
}

/// A clock that never falls.
pub trait Clock {
    /// The last answer, or less.
    ghost last: { Self → ℕ };

    /// The answers so far, where they are told.
    ghost answers: { Self → Option (List ℕ) };

    /// The present moment, in milliseconds: never less than before, at most 2^61. Can't fail, takes no memory.
    fn now(&mut self) -> u64
        ensures bound { result ≤ 2 ^ 61 }
        ensures later { last self.old ≤ result }
        ensures last { last self.new ≡ result }
        ensures answer { Grows (answers self.old) (answers self.new) (result ∷ []) };
}

/// Writes the whole piece, by as many calls as the sink asks for.
///
/// # Errors
/// `Failed` only where the sink's count of faults rose in this call; a front of the piece was written.
pub fn write_all<K: Sink>(out: &mut K, piece: &[u8]) -> Result<(), Failed>
    ensures ok { OnOk result (Grows (K.written out.old) (K.written out.new) piece.now) }
    ensures err { OnErr result (GrowsByFront (K.written out.old) (K.written out.new) piece.now) }
    ensures cause { HasCause (K.faults out.old) (K.faults out.new) result (record {}) }
{
    let mut at = 0;
    while at < piece.len() {
        at += out.write(&piece[at..])?;
    }
    Ok(())
}
