//! From a program's text to its checked form.
//! Parsed, then checked: the front of every command that takes a program.
#![tactic(auto)]

mod text;

pub use text::checked_text;

#[cfg(test)]
mod tests;
