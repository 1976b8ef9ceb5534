//! Puts that go round the flows of one switch, at a replica that is head and tail.

use proto_model::{Body, Chain, Config, Input, Mode, Msg, Terms};
use rp_app::Delta;
use rp_base::{Key, NoMemory, Node};
use std::alloc::{AllocError, Global};
use store_replica::Replica;

// A replica takes fewer inputs than this.
const TURNS: u64 = 4_000_000_000;

// A message of switch 0 to replica 0.
fn from_switch(body: Body) -> Input {
    Input::Msg(Msg {
        from: Node::Switch(0),
        to: Node::Replica(0),
        body,
    })
}

fn ask(key: Key) -> Input {
    from_switch(Body::Ask {
        inc: 1,
        nonce: 1,
        key,
        load: None,
    })
}

// A Put of cell 0.
fn put(alloc: Global, key: Key, number: u64) -> Result<Input, NoMemory> {
    let mut delta = Delta::new(alloc);
    delta.set(0, number)?;
    Ok(from_switch(Body::Put {
        inc: 1,
        epoch: 1,
        number,
        key,
        delta,
        load: None,
    }))
}

// The only replica of its chain. Flows have one cell.
fn replica(alloc: Global) -> Result<Replica, NoMemory> {
    let mut chain = Chain::new();
    chain.push(0);
    let terms = Terms {
        t_switch: 1000,
        t_store: 1100,
        ratio: 50,
        mode: Mode::Strict,
    };
    Replica::open(alloc, 0, 1, &terms, &Config { number: 1, chain })
}

// Whether the replica applied an entry on this input.
fn applies(replica: &mut Replica, input: &Input) -> Result<bool, NoMemory> {
    if replica.turns() >= TURNS {
        return Ok(false);
    }
    let did = replica.on(0, input)?;
    Ok(did.applied.is_some())
}

// How many Puts the replica applied: flow 0 has the first one, and its second one once each flow has had one.
fn applied(alloc: Global, flows: u32, puts: u32) -> Result<u64, NoMemory> {
    let mut replica = replica(alloc)?;
    for flow in 0..flows {
        if let Some(key) = Key::of(&flow.to_be_bytes()) {
            applies(&mut replica, &ask(key))?;
        }
    }
    let mut count: u64 = 0;
    for i in 0..puts {
        let flow = i % flows.max(1);
        let number = (i / flows.max(1)) as u64 + 1;
        if let Some(key) = Key::of(&flow.to_be_bytes()) {
            if applies(&mut replica, &put(alloc, key, number)?)? {
                count = count.saturating_add(1);
            }
        }
    }
    Ok(count)
}

/// What is printed for a line: the number of applied Puts, or what is wrong with the line.
///
/// # Errors
/// `AllocError` where memory is wanting for the text.
pub fn told(alloc: Global, line: &str) -> Result<String, AllocError> {
    let Some((flows, puts)) = line.split_once(' ') else {
        return format!(in alloc; "no two numbers");
    };
    let (Ok(flows), Ok(puts)) = (flows.parse::<u32>(), puts.parse::<u32>()) else {
        return format!(in alloc; "no number");
    };
    match applied(alloc, flows, puts) {
        Ok(count) => format!(in alloc; "{count}"),
        Err(_) => format!(in alloc; "no memory"),
    }
}
