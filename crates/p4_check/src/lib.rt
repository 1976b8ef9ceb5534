//! Programs are checked: the least place at which one is wrong and the first cause there, or its tree with the width of each literal.
#![tactic(auto)]

mod checked;
mod control;
mod end;
mod graph;
mod part;
mod program;
mod state;

pub use checked::{Checked, check};
pub use end::CheckEnd;
pub use part::{Parts, Selected, States};
