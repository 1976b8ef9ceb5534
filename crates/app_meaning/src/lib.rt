//! The meaning of checked programs.
#![tactic(auto)]

mod laws;

pub use laws::{programs_are_applications, tables_find_the_longest_prefix};
