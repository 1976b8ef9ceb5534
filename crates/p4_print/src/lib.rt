//! The canonical text of programs.
#![tactic(auto)]

mod control;
mod declaration;
mod expression;
mod parser;
mod program;
mod shared;
mod statement;
mod table;
mod written;

pub use program::print;
