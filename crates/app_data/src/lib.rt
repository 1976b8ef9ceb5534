//! What a running program keeps: values, where they stand, what names stand for, and how far a packet is.
#![tactic(auto)]

mod run;
mod scope;
mod value;

pub use run::Run;
pub use scope::{Constant, Register, Scope, Slot, TypeSlots};
pub use value::{Match, Value};
