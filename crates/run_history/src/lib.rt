//! What a run leaves behind: the books of its replicas, what was fed, processed and released, and the lines of its report.
#![tactic(auto)]

mod book;
mod event_lines;
mod history;

pub use book::{Book, Booked};
pub use event_lines::{refused, store_lines, switch_lines};
pub use history::{History, Journaled, RoundBegun};
