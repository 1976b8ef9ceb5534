//! Schedules that are generated from a number, for large runs.
#![tactic(auto)]

mod draws;
mod generated;

pub use generated::generate;

#[cfg(test)]
mod tests;
