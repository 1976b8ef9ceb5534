//! Programs as code over numbered slots: no name is left to look up.
#![tactic(auto)]

mod code;
mod step;

pub use code::Code;
pub use step::{CellRange, Reading, Step, Target, Test, Writing};
