//! What a world shows of itself to those that print it or carry its frames.
ghost use Rattle.std.specs.Prelude.{◌≡◌, ◌≤◌, ◌<◌, None, Some, length, option_map, slice_get};
ghost use Rattle.std.specs.Option.{option_copied};
ghost use Rattle.rp_frame.specs.Spelling.{spelling};
ghost use Rattle.world_state.specs.Nodes.{last_running};

use crate::nodes::ReplicaNode;
use crate::state::WorldState;
use lease_table::LeaseTable;
use run_history::{Booked, History};

impl ReplicaNode {
    /// The records of the flows, as they stand once the book is applied.
    pub fn leases(&self) -> &LeaseTable
        ensures cells { result.now.cell_count ≡ self.now.state.replica.cell_count }
        ensures records { result.now.records ≡ self.now.state.replica.records }
    {
        self.state.leases()
    }

    /// The entries that the replica applied, in order.
    pub fn book(&self) -> &[Booked]
        ensures { result.now ≡ self.now.book }
    {
        self.book.as_slice()
    }
}

// The last of these replicas that runs, or else the one that was found before them.
fn last_running<'a>(
    last: Option<&'a ReplicaNode>,
    nodes: &'a [ReplicaNode],
) -> Option<&'a ReplicaNode>
    ensures { option_copied result ≡ last_running (option_copied last.entry) nodes.now }
{
    match nodes {
        [] => last,
        [node, rest @ ..] => last_running(if node.runs { Some(node) } else { last }, rest),
    }
}

impl WorldState {
    /// How many frames were sent; they are numbered from 0.
    pub fn frames(&self) -> u64
        ensures { result ≡ length self.now.frames }
    {
        self.frames.len() as u64
    }

    /// The bytes of the frame with this number, at most 3,700.
    pub fn frame(&self, number: u64) -> &[u8]
        requires { number < length self.now.frames }
        ensures spelled { option_map spelling (slice_get self.now.frames number) ≡ Some result.now }
        ensures short { length result.now ≤ 3700 }
    {
        self.frames.bytes(number as usize)
    }

    /// The number of the last event; 0 before the first.
    pub fn event(&self) -> u64
        ensures { result ≡ self.now.event }
    {
        self.event
    }

    /// What was fed, processed, begun and released.
    pub fn history(&self) -> &History
        ensures { result.now ≡ self.now.history }
    {
        &self.history
    }

    /// The replica whose book is committed: the last running one in chain order, if one runs.
    pub fn committed(&self) -> Option<&ReplicaNode>
        ensures { option_copied result ≡ last_running None self.now.replicas }
    {
        last_running(None, self.replicas.as_slice())
    }
}
