//! A program's run of one packet, by walking its tree: which cells the packet writes, what it leaves as, and the key of its flow.
#![tactic(auto)]

mod app;
mod first;
mod run;

pub use app::{TreeApp, TreeRun};
pub use run::{Ended, run_in};
