//! The deparser, by walking the tree: the bits of valid headers, then those that the parser left, are the bytes of the output.
#![tactic(auto)]

mod emits;
mod field;
mod outgoing;
mod standard;

pub use outgoing::output;
pub use standard::{std_slot, std_value};
