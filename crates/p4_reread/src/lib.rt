//! Canonical text read again: its tokens, and the tree that they spell.
#![tactic(auto)]

mod lexemes;
mod texts;
mod trees;

pub use lexemes::{canonical_tokens_are_read_again, tokens_are_lexemes};
pub use texts::canonical_text_is_parsed_again;
pub use trees::{canonical_text_is_read_as_its_tree, canonical_tokens_spell_their_tree};

#[cfg(test)]
mod refusal_tests;
#[cfg(test)]
mod tests;
#[cfg(test)]
mod time_tests;
