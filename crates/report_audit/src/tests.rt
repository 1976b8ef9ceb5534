//! A packet of one flow that is counted and released, by values worked out by hand.

use super::*;
use rp_app::CountApp;
use rp_base::{Bytes, Cells, Fed, Flow, Key, Marks, NoMemory, Output, Packet, Released};
use std::alloc::Global;
use std::test::Fail;

fn text(alloc: Global, piece: &[u8]) -> Result<Bytes, NoMemory> {
    let mut bytes = Bytes::new(alloc);
    bytes.append(piece)?;
    Ok(bytes)
}

// The first packet of flow `a` leaves at event 2 by this port, counted as the first one.
fn released(alloc: Global, port: u16) -> Result<Released, NoMemory> {
    Ok(Released {
        event: 2,
        output: Output {
            mark: 1,
            port,
            bytes: text(alloc, b"\0\0\0\0\0\0\0\x01a")?,
        },
    })
}

#[test]
fn an_output_by_another_port_fails_the_second_rule(rt: HostRuntime) -> Result<(), Fail> {
    let alloc = rt.alloc();
    let feeds = [Fed {
        event: 1,
        packet: Packet {
            mark: 1,
            port: 7,
            bytes: text(alloc, b"a")?,
        },
    }];
    let mut marks = Marks::new(alloc);
    marks.push(1)?;
    let mut cells = Cells::new(alloc);
    cells.push(1)?;
    let key = Key::of(b"a").ok_or("a key")?;
    let flows = [Flow { key, marks, cells }];
    let app = CountApp { alloc };
    let right = [released(alloc, 7)?];
    assert_eq!(rt; audit(alloc, &app, &feeds, &right, &flows)?, Audit::Legal);
    let wrong = [released(alloc, 8)?];
    assert_eq!(rt;
        audit(alloc, &app, &feeds, &wrong, &flows)?,
        Audit::Fails(2)
    );
    Ok(())
}
