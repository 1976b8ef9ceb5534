//! Routing and the master: which switch a packet goes to, and which replicas the store has.
#![tactic(auto)]

mod chain;
mod router;
mod up;
mod worlds;

pub use router::{DetectEnd, Router};
pub use worlds::routes_follow_worlds;

#[cfg(test)]
mod tests;
