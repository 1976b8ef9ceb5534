//! The entries of a program's tables as indexed tables.
#![tactic(auto)]

mod rows;

pub use rows::table_of;
