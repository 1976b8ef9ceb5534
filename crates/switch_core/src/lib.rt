//! A switch: it takes packets, messages and Alarms, and keeps what its flows need.
#![tactic(auto)]

mod alarm;
mod asks;
mod did;
mod going;
mod grants;
mod leases;
mod node;
mod packets;
mod renewals;
mod replies;
mod switch;

pub use did::{Begun, Item, Msgs, SwitchDid};
pub use node::SwitchCore;
