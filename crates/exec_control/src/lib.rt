//! An ingress control over numbered slots: what is made of it, and its runs.
#![tactic(auto)]

mod made;
mod run;

pub use made::{Control, control_of};
pub use run::run_control;
