//! The lines that a report ends with: of each flow its serial list, or its epochs with what a snapshot keeps of them, and its cells.
#![tactic(auto)]

mod closing;
mod epoch_notes;
mod epoch_table;
mod notes;

pub use closing::closing_lines;
