//! The copies of unacknowledged Puts that a switch sends again: each stands on its slot's list and on the list by last sending.
#![tactic(auto)]

mod buffer;
mod kept;

pub use buffer::{Full, MirrorBuf};
pub use kept::Kept;
pub use link_arena::Id as MirrorId;

#[cfg(test)]
mod tests;
