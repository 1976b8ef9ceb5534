//! Actions over numbered slots: what is made of them, and their runs.
#![tactic(auto)]

mod action;
mod idle;

pub use action::{Action, Param, action_of, run_action};
