//! Expressions: their faults, what they give, the widths of their literals, and the values of those that are constant.
#![tactic(auto)]

pub mod call;
pub mod constant;
mod form;
pub mod left;
pub mod number;
pub mod operand;
mod part;
pub mod taking;
pub mod typing;

pub use form::Form;
pub use part::{Operands, Typed};
