//! A replica of the store, at any place of its chain: a row is picked by cases, and one function does what follows.
#![tactic(auto)]

mod acts;
mod appends;
mod chain;
mod copies;
mod did;
mod echoes;
mod gatherings;
mod heads;
mod messages;
mod part;
mod replica;
mod row;
mod state;

pub use did::{Msgs, StoreDid};
pub use replica::Replica;
