//! The protocol as definitions: the rows of switch and replica, the world and its history, what is committed, what is legal.
//!
//! The data that these definitions speak of stand in `proto_data`, and are re-exported here.
#![tactic(auto)]

pub use proto_data::{
    Body, Carried, Chain, Chunk, Config, Echoed, Entry, Input, Mode, Msg, Record, Terms,
};
