//! Readers of the smallest parts of programs, each exactly the grammar's reading function: single tokens, names and paths, types,
//! operators; what is made of them; and the counts that keep trees shallow.
//!
//! A reader takes the tokens that are left and gives a value and the tokens behind it, or the tokens from the refused one on.
#![tactic(auto)]

pub mod closing;
pub mod deep;
pub mod end;
pub mod list;
pub mod name;
pub mod operator;
pub mod path;
pub mod piece;
pub mod token;
pub mod typedefs;
pub mod value;
