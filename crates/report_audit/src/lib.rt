//! Whether a report shows what one switch that never fails could have done: the rules of legality, each decided from the
//! report's lines and the packets that were fed.
#![tactic(auto)]

mod apart;
mod feeds;
mod keyless;
mod laws;
mod listed;
mod lists;
mod notes;
mod outputs;
mod rules;
mod verdict;

pub use laws::{feeds_are_in_order, legal_exactly};
pub use rules::audit;
pub use verdict::Audit;

#[cfg(test)]
mod tests;
