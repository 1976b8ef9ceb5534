//! Statements run by walking the tree; what calls of actions and applications of tables do is given.
#![tactic(auto)]

mod calls;
mod values;
mod walk;

pub use calls::Calls;
pub use values::values_of;
pub use walk::{block, stmt};
