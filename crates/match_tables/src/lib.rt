//! Tables of entries under masks, indexed: which entry wins for given keys.
#![tactic(auto)]

mod entries;
mod places;
mod table;

pub use entries::{Entries, MatchCond, MatchKeys, MatchKind, MatchRows};
pub use table::Table;
