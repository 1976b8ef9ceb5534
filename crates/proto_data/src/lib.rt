//! The data of nodes and messages: entries of the store's book, messages, records and terms.
#![tactic(auto)]

mod carried;
mod chain;
mod fits;
mod limits;
mod message;
mod terms;

pub use chain::{Chain, Chunk};
pub use limits::{COPIES, FRAMES, MARKS, MESSAGES, PENDING, RECORDS, REPLICAS, SLOTS, SWITCHES};
pub use message::{Body, Carried, Config, Echoed, Entry, Input, Msg, Record};
pub use terms::{Mode, Terms};

#[cfg(test)]
mod tests;
