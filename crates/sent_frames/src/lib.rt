//! The frames that were sent, as bytes: read again as messages, and found by their bytes.
#![tactic(auto)]

mod first_places;
mod frames;

pub use frames::Frames;
