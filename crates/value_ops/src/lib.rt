//! What the operators of the language make of values. Every operator is total: its answer is cut to a width of at most 128 bits.
#![tactic(auto)]

mod arithmetic;
mod bits;
mod operator;

pub use bits::{cut, slice_value, truth, with_slice};
pub use operator::{binary_value, unary_value};
