//! How many steps a call takes: a count that has no bytes and no code, and that contracts bound.
#![tactic(auto)]

mod steps;

pub use steps::Steps;
