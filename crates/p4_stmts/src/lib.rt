//! Statements, and declarations of constants and variables: the scope behind them, and copies of them with the widths of their literals.
#![tactic(auto)]

pub mod call;
pub mod cell;
pub mod declared;
pub mod key;
mod simple;
pub mod walk;
