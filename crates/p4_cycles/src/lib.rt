//! States that can lead back to themselves.
//!
//! A state's rank is the number of its component; a state that leads to lesser ranks alone can't lead back, since ranks never rise.
//! Only for the others is the graph searched.
#![tactic(auto)]

mod flood;
mod graph;
mod rank;

pub use graph::{falls, is_clear, leads_back};
pub use rank::ranks;
