//! What a switch keeps of one flow: its lease, the marks of what waits, and its cells with the round of snapshots that runs.
#![tactic(auto)]

mod cells;
mod lease;
mod own_cells;
mod ring;
mod slot;

pub use cells::{Part, SlotCells};
pub use lease::SlotLease;
pub use ring::Ring;
pub use slot::Slot;

#[cfg(test)]
mod tests;
