//! What is proved of rewriting: a rewritten program keeps its source's meaning, behind the leases of its flows.
#![tactic(auto)]

mod laws;

pub use laws::{rewritten_programs_are_applications, rewritten_programs_keep_their_meaning};
