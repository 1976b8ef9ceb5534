//! What switches send to the head for one flow, with incarnation, nonce and epoch 1.

use proto_model::{Body, Carried, Chunk, Input, Msg};
use rp_app::Delta;
use rp_base::{Bytes, Key, NoMemory, Node};
use std::alloc::Global;

fn from_switch(n: u8, body: Body) -> Input {
    Input::Msg(Msg {
        from: Node::Switch(n),
        to: Node::Replica(0),
        body,
    })
}

fn load(alloc: Global, mark: u64) -> Option<Carried> {
    Some(Carried {
        mark,
        port: 7,
        bytes: Bytes::new(alloc),
    })
}

/// An Ask with a packet.
pub(crate) fn ask(alloc: Global, key: Key, switch: u8, mark: u64) -> Input {
    let load = load(alloc, mark);
    let body = Body::Ask {
        inc: 1,
        nonce: 1,
        key,
        load,
    };
    from_switch(switch, body)
}

/// A Put of cell 0 with an output, from switch 0.
///
/// # Errors
/// `NoMemory`.
pub(crate) fn put(alloc: Global, key: Key, number: u64, mark: u64) -> Result<Input, NoMemory> {
    let mut delta = Delta::new(alloc);
    delta.set(0, number)?;
    let load = load(alloc, mark);
    let body = Body::Put {
        inc: 1,
        epoch: 1,
        number,
        key,
        delta,
        load,
    };
    Ok(from_switch(0, body))
}

/// A chunk of round 1, which has two, from switch 0: so many cells, at most 32, each 6.
pub(crate) fn snap(key: Key, n: u16, place: u8) -> Input {
    let mut cells = Chunk::new();
    for _ in 0..n {
        if cells.as_slice().len() < 32 {
            cells.push(6);
        }
    }
    let body = Body::Snap {
        inc: 1,
        epoch: 1,
        round: 1,
        key,
        chunk: place,
        chunks: 2,
        cells,
    };
    from_switch(0, body)
}
