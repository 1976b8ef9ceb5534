//! Packets that go round the flows of a switch.

use crate::late::Late;
use crate::rig::{Rig, from_head, packet};
use proto_data::{Body, Input};
use rp_base::{Cells, NoMemory};
use std::alloc::{AllocError, Global};

// What comes for a message: a Grant of epoch 1, or the Ack whose turn it is.
fn answer(alloc: Global, late: &mut Late, body: Body) -> Result<Option<Input>, NoMemory> {
    match body {
        Body::Ask {
            inc,
            nonce,
            key,
            load,
        } => Ok(Some(from_head(Body::Grant {
            inc,
            nonce,
            epoch: 1,
            key,
            cells: Cells::zeros(alloc, 1)?,
            load,
        }))),
        Body::Put {
            inc,
            epoch,
            number,
            key,
            load,
            ..
        } => Ok(late.pass(from_head(Body::Ack {
            inc,
            epoch,
            upto: number,
            key,
            load,
        }))),
        _ => Ok(None),
    }
}

// Feeds a packet of a flow, and gives what comes for it: at most a Grant and an Ack.
fn feed(
    alloc: Global,
    rig: &mut Rig,
    late: &mut Late,
    mark: u32,
    flow: u32,
) -> Result<(), NoMemory> {
    let mut input = packet(alloc, mark, flow)?;
    for _ in 0..3 {
        let Some(msg) = rig.sent(&input)? else {
            return Ok(());
        };
        let Some(next) = answer(alloc, late, msg.body)? else {
            return Ok(());
        };
        input = next;
    }
    Ok(())
}

// How many outputs a switch released: each flow has one packet first, and its lease, and then the packets go round.
fn released(alloc: Global, flows: u32, packets: u32, waiting: u32) -> Result<u64, NoMemory> {
    let mut rig = Rig::open(alloc)?;
    let mut none = Late::of(alloc, 0)?;
    for flow in 0..flows {
        feed(alloc, &mut rig, &mut none, flow, flow)?;
    }
    let mut late = Late::of(alloc, waiting)?;
    for i in 0..packets {
        feed(alloc, &mut rig, &mut late, i, i % flows.max(1))?;
    }
    Ok(rig.released)
}

/// What is printed for a line: the number of released outputs, or what is wrong with the line.
///
/// # Errors
/// `AllocError` where memory is wanting for the text.
pub(crate) fn told(alloc: Global, line: &str) -> Result<String, AllocError> {
    let Some((flows, rest)) = line.split_once(' ') else {
        return format!(in alloc; "no two numbers");
    };
    let (packets, waiting) = rest.split_once(' ').unwrap_or((rest, "0"));
    let (Ok(flows), Ok(packets), Ok(waiting)) = (
        flows.parse::<u32>(),
        packets.parse::<u32>(),
        waiting.parse::<u32>(),
    ) else {
        return format!(in alloc; "no number");
    };
    match released(alloc, flows, packets, waiting) {
        Ok(count) => format!(in alloc; "{count}"),
        Err(_) => format!(in alloc; "no memory"),
    }
}
