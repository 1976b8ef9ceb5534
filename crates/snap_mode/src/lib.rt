//! Both ends of snapshots: how old an update may get at a switch, and the chunks of a round as they come to the store.
#![tactic(auto)]

mod ages;
mod gather;
mod round_cells;

pub use ages::Ages;
pub use gather::{Gather, Gathered, SnapPart};
pub use round_cells::RoundCells;

#[cfg(test)]
mod tests;
