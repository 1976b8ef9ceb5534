//! Reads and writes of cells, and the key of a flow, by walking the tree.
#![tactic(auto)]

mod cell;
mod key;
mod statement;

pub use cell::{cell_number, cell_of, member, store};
pub use key::set_key;
pub use statement::{low, read, word, write};
