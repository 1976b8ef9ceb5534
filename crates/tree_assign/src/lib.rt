//! How values change, by walking the tree: assignments, declarations of variables, and headers that become valid or invalid.
#![tactic(auto)]

mod assigning;
mod header;
mod slots;

pub use assigning::{assign, assigned, declare};
pub use header::{field_count, header_of, is_invalid, renew, validate};
pub use slots::{put, set_slot};
