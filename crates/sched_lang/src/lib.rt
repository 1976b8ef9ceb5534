//! The text of schedules: what a run is given, and where a text is refused.
#![tactic(auto)]

mod event;
mod header;
mod reading;
mod schedule;
mod words;

pub use reading::{accepted_schedules_are_ready, read, read_with_mode};
pub use schedule::{Events, SchedEnd, SchedWhy, Schedule};

#[cfg(test)]
mod tests;
