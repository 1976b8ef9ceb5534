//! What the protocol asks of an application, and the application that counts packets.
#![tactic(auto)]

mod app;
mod count;
mod delta;

pub use app::App;
pub use count::CountApp;
pub use delta::Delta;

#[cfg(test)]
mod tests;
