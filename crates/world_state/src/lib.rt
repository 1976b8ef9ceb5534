//! The world of a run as code: any nodes, the frames between them, and the history; one event at a time.
#![tactic(auto)]

mod acts;
mod announcements;
mod contents;
mod cursors;
mod hand;
mod nodes;
mod on;
mod opening;
mod passing;
mod performs;
mod sending;
mod state;
mod turns;

pub use nodes::ReplicaNode;
pub use state::WorldState;
