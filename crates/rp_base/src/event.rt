//! The events of a schedule, and the causes that a report names.

use crate::bytes::Bytes;
use crate::node::Node;
use crate::numbers::Advances;

/// One event of a schedule.
#[derive(Debug, Drop)]
pub enum Event {
    /// A packet arrives at the switch that routing picks.
    Feed { port: u16, bytes: Bytes },
    /// A packet arrives at this switch.
    FeedAt { at: u8, port: u16, bytes: Bytes },
    /// The frame of this number arrives at its addressee.
    Deliver(u64),
    /// The first frame that was never delivered or dropped, and whose addressee runs, arrives.
    Next,
    /// `Next` passes the frame of this number over from now on.
    Drop(u64),
    /// The clocks go on, switches first.
    Time(Advances),
    /// A node sends again what is due.
    Alarm(Node),
    /// A node stops.
    Fail(Node),
    /// A stopped switch starts empty, with the next incarnation.
    Boot(u8),
    /// The view of a node becomes true.
    Detect(Node),
    /// The master sends its configuration to every running node.
    Announce,
    /// Frames are taken from the link.
    Pump,
}

/// Why a packet was dropped.
#[derive(Clone, Copy, Debug, PartialEq, Eq)]
pub enum DropCause {
    /// The switch has no room for another flow.
    Full,
    /// The switch has no room for another copy.
    Mirror,
    /// The packet came back with a Grant that was too late.
    Late,
    /// Another switch has the flow.
    Busy,
    /// What the last snapshot lacks is too old.
    Bound,
}

/// Why a message was lost.
#[derive(Clone, Copy, Debug, PartialEq, Eq)]
pub enum Lost {
    /// Its request is over, or it makes no sense here.
    Stale,
    /// It is for a replica in another place of the chain.
    Role,
    /// Its number is past the next one.
    Gap,
    /// The replica has no room for another entry that waits.
    Pending,
    /// It is of another configuration.
    Config,
    /// Its entry is past the next one.
    Order,
}

/// Why an event was refused.
#[derive(Clone, Copy, Debug, PartialEq, Eq)]
pub enum Refusal {
    /// There is no room for 64 more frames.
    FramesFull,
    /// No switch is believed up.
    Nowhere,
    /// The node that must act has stopped.
    Dead,
    /// No frame has this number.
    NoFrame,
    /// There is no frame for `Next`.
    NoneLeft,
    /// The advances are further apart than the ratio allows.
    Rates,
    /// It would stop the last running replica.
    LastReplica,
    /// The node runs.
    Alive,
    /// The node is known to have stopped.
    Known,
    /// Frames go over a link.
    Linked,
    /// Frames go over no link.
    NoLink,
}
