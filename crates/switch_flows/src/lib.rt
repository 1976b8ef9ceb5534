//! The flows of a switch: a slot for each key, and the copies of unacknowledged Puts.
#![tactic(auto)]

mod flows;
mod put_copy;
mod resending;

pub use flows::{Flow, Flows};
pub use put_copy::PutCopy;
