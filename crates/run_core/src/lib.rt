//! What the program does, over any inputs, sink, link and clock.
#![tactic(auto)]

mod command;
mod loading;
mod status;
mod top;

pub use status::Status;
pub use top::rp_main;
