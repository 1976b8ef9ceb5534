//! The parser, by walking the tree: from state to state, headers take their bits from the front of the packet, until it is accepted
//! or rejected.
#![tactic(auto)]

mod field;
mod state;
mod walk;

pub use walk::parse;
