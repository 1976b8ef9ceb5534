//! Which entry of a table and which case of a `select` wins, by walking the tree.
#![tactic(auto)]

mod keyset;
mod winner;

pub use keyset::one_match;
pub use winner::{chosen, lpm_place, won};
