//! The states of a flow's lease at a switch, as types: only a lease that lasts lets a packet be processed.
#![tactic(auto)]

mod asking;
mod held;
mod idle;
mod lapsed;
mod output;

pub use asking::{Asking, Late};
pub use held::{Held, Live};
pub use idle::Idle;
pub use lapsed::Lapsed;
pub use output::HeldOutput;

#[cfg(test)]
mod tests;
