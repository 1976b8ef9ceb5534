//! Expressions and statements made into code over numbered slots, and their runs.
#![tactic(auto)]

mod branch;
mod expression;
mod run;
mod statement;

pub use branch::{action_number, block_of, codes_of, step_of, table_number};
pub use expression::{code_of, value_of};
pub use run::{Actions, step};
pub use statement::declare_of;
