//! Nodes that stand on two linked lists at once and name each other by number: what is seen of them is the lists.
#![tactic(auto)]

mod arena;
mod chain;
mod ends;
mod id;
mod node;

pub use arena::{Arena, Full};
pub use id::Id;
pub use node::Which;

#[cfg(test)]
mod tests;
