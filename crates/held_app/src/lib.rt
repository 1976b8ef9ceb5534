//! Rewritten programs as applications, by walking their trees.
#![tactic(auto)]

mod app;
mod program;

pub use program::HeldApp;
