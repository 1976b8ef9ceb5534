//! The values of names and expressions, by walking the tree.
#![tactic(auto)]

mod declared;
mod expressions;
mod paths;

pub use declared::{named_register, named_type, type_width};
pub use expressions::{eval, high_bit, literal, low_bit};
pub use paths::{path_value, place, slot_of, slot_of_name, value_in};
