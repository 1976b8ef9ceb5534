//! A run whose report is written as it comes: that of the whole world, and that of one switch that never fails.
#![tactic(auto)]

mod running;

pub use running::{Stop, write_plain, write_report};
