//! Values by key, in the order in which the keys came: one table for slots, records and whatever else goes by flow.
#![tactic(auto)]

mod table;

pub use table::KeyTable;

#[cfg(test)]
mod tests;
