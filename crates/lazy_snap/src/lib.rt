//! A flow's cells, and what they were at the begin of the round of snapshots that runs, without a copy of them all.
#![tactic(auto)]

mod kept;
mod snap;

pub use snap::{LazySnap, Running};

#[cfg(test)]
mod tests;
