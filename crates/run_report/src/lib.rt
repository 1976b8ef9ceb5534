//! The lines of a report as text.
#![tactic(auto)]

mod names;
mod report;
mod text;

pub use report::line;
pub use text::Text;

#[cfg(test)]
mod tests;
