//! The text of reports, read back: what was released, what was refused, and what each flow came to.
#![tactic(auto)]

mod forms;
mod reading;
mod report;
mod values;
mod words;

pub use reading::{printed_lines_are_read, read, whole_reports_are_read};
pub use report::{Report, ReportEnd, ReportWhy};

#[cfg(test)]
mod tests;
