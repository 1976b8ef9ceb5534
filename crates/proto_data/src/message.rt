//! Store entries, and the messages between nodes.

use crate::chain::{Chain, Chunk};
use rp_app::Delta;
use rp_base::{Bytes, Cells, Key, Node, Packet};

/// A packet or an output that rides on a message.
#[derive(Debug, Drop)]
pub struct Carried {
    pub mark: u64,
    pub port: u16,
    pub bytes: Bytes,
}

/// A configuration of the chain.
#[derive(Debug, Drop)]
pub struct Config {
    pub number: u64,
    pub chain: Chain,
}

/// An entry of the store's book.
#[derive(Debug, Drop)]
pub enum Entry {
    Grant {
        key: Key,
        epoch: u64,
        switch: u8,
        inc: u64,
        nonce: u64,
    },
    Put {
        key: Key,
        epoch: u64,
        number: u64,
        delta: Delta,
    },
    Snap {
        key: Key,
        epoch: u64,
        round: u64,
        cells: Cells,
    },
}

/// What an echo stands for.
#[derive(Debug, Drop)]
pub enum Echoed {
    Ask {
        switch: u8,
        inc: u64,
        nonce: u64,
        key: Key,
    },
    Put {
        switch: u8,
        epoch: u64,
        number: u64,
        key: Key,
    },
}

/// What a message says.
#[derive(Debug, Drop)]
pub enum Body {
    Ask {
        inc: u64,
        nonce: u64,
        key: Key,
        load: Option<Carried>,
    },
    Grant {
        inc: u64,
        nonce: u64,
        epoch: u64,
        key: Key,
        cells: Cells,
        load: Option<Carried>,
    },
    Busy {
        inc: u64,
        nonce: u64,
        key: Key,
        mark: Option<u64>,
    },
    Put {
        inc: u64,
        epoch: u64,
        number: u64,
        key: Key,
        delta: Delta,
        load: Option<Carried>,
    },
    Ack {
        inc: u64,
        epoch: u64,
        upto: u64,
        key: Key,
        load: Option<Carried>,
    },
    Deny {
        inc: u64,
        epoch: u64,
        key: Key,
    },
    Forward {
        config: u64,
        index: u64,
        entry: Entry,
        load: Option<Carried>,
    },
    Have {
        index: u64,
    },
    Echo {
        of: Echoed,
        load: Option<Carried>,
    },
    Config(Config),
    Snap {
        inc: u64,
        epoch: u64,
        round: u64,
        key: Key,
        chunk: u8,
        chunks: u8,
        cells: Chunk,
    },
}

/// A message.
#[derive(Debug, Drop)]
pub struct Msg {
    pub from: Node,
    pub to: Node,
    pub body: Body,
}

/// What a node takes in one step.
#[derive(Debug, Drop)]
pub enum Input {
    Packet(Packet),
    Msg(Msg),
    Alarm,
}

/// What a store replica keeps of a flow.
#[derive(Debug, Drop)]
pub struct Record {
    pub epoch: u64,
    pub switch: u8,
    pub inc: u64,
    pub nonce: u64,
    pub last: u64,
    pub cells: Cells,
    pub moment: u64,
}
