//! Messages as frames of bytes, version 1.
#![tactic(auto)]

mod entries;
mod fields;
mod frame_end;
mod frames;
mod kinds;
mod laws;
mod lists;
mod parts;
mod ranges;
mod writing;
mod writing_kinds;

pub use frame_end::FrameEnd;
pub use frames::decode;
pub use writing::{encode, kind_of};

#[cfg(test)]
mod tests;
