//! The parser: the tree of a program's text, or the place and the cause of its first fault.
#![tactic(auto)]

mod end;
mod laws;
mod text;

pub use end::ParseEnd;
pub use laws::texts_are_parsed_by_the_grammar;
pub use text::parse;
