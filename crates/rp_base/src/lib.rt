//! What every layer speaks of: lists, keys, nodes, packets, events and lines, the tests of clocks, and the traits of the outside.
#![tactic(auto)]

mod bytes;
mod clocks;
mod error;
mod event;
mod key;
mod legality;
mod line;
mod list_clock;
mod mem_inputs;
mod mem_link;
mod mem_sink;
mod node;
mod numbers;
mod outside;
mod refused;
mod words;

pub use bytes::Bytes;
pub use clocks::{rates_hold, terms_hold};
pub use error::NoMemory;
pub use event::{DropCause, Event, Lost, Refusal};
pub use key::Key;
pub use legality::{Fed, Feeds, Flow, Flows, Released, Releases};
pub use line::{Line, Lines};
pub use list_clock::ListClock;
pub use mem_inputs::{Content, MemInputs, SureInputs};
pub use mem_link::{Datagram, MemLink, Post, Receipt, SureLink, Waiting};
pub use mem_sink::{Kept, MemSink, SureSink};
pub use node::{Node, Output, Packet};
pub use numbers::{Advances, Cells, Marks, Numbers};
pub use outside::{Clock, Failed, InputEnd, Inputs, Link, LinkEnd, Sink, write_all};
pub use refused::{Refused, Why};
pub use words::Words;

#[cfg(test)]
mod tests;
