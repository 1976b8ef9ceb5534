//! The records of a store: who has the lease of each flow, and what its cells are.
#![tactic(auto)]

mod records;

pub use records::LeaseTable;

#[cfg(test)]
mod tests;
