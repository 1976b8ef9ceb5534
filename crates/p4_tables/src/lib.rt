//! Tables: their keys, actions, default action and entries, and the keysets of entries and of `select`.
#![tactic(auto)]

pub mod entry;
pub mod keyset;
pub mod listed;
pub mod masked;
mod part;
pub mod table;

pub use part::{Key, Keyed, Listed, Masked, Matched, Member, Members, Parts};
