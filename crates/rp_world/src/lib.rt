//! The world of a run: its nodes, the frames between them, and the history.
#![tactic(auto)]

mod world;

pub use world::{Setup, World};
