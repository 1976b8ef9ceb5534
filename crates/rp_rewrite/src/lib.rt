//! Checked programs are rewritten so that their cells stand behind a lease: in one list of all cells, read and written under the lease
//! alone.
#![tactic(auto)]

mod cells;
mod parts;
mod program;
mod walk;

pub use program::rewrite;
