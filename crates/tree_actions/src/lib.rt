//! Actions and tables, by walking the tree: what calls and tables do in the ingress control, and what they do in an action, nothing;
//! and the run of a whole ingress control.
#![tactic(auto)]

mod action;
mod control;
mod run;
mod table;

pub use control::Control;
pub use run::run_control;
