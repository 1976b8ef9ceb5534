//! The tokens of a program's text.
#![tactic(auto)]

mod end;
mod front;
mod number;
mod sign;
mod token;
mod tokens;
mod word;

pub use end::LexEnd;
pub use token::{Lexeme, Sign, Token};
pub use tokens::Tokens;

#[cfg(test)]
mod tests;
