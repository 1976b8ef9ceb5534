//! Fields of bits in bytes: a reader takes them from the front, a writer puts them behind one another. Both are seen as lists of
//! bits, each 0 or 1, of every byte the most significant one first.
#![tactic(auto)]

mod reader;
mod writer;

pub use reader::{BitReader, Short};
pub use writer::BitWriter;

#[cfg(test)]
mod tests;
