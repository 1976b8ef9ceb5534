//! The text of a schedule, printed: its lines without comments, in lower case.
#![tactic(auto)]

mod printing;

pub use printing::{generated_schedules_are_read, print, printed_schedules_are_read};

#[cfg(test)]
mod tests;
