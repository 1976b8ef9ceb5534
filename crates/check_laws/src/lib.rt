//! Laws of checked programs: what the checks accept is what the laws of programs' meaning rest on.
#![tactic(auto)]

mod accepted;

pub use accepted::checked_programs_are_sound;
