//! The grammar of programs as a relation of trees and tokens, and the function that reads a tree from tokens.
#![tactic(auto)]

mod laws;
mod mark;

pub use laws::programs_are_read;
pub use mark::{Mark, Piece, Properties, Spelled};
