use proto_data::{Mode, Terms};
use rp_app::CountApp;
use rp_base::{Bytes, Event, Line, Lines, NoMemory, Node};
use rp_world::{Setup, World};
use std::alloc::Global;
use std::test::Fail;

// The Ask of packet 1, `a!` at port 7.
const ASK: [u8; 27] = [
    0x52, 0x50, 1, 1, 0, 16, 0, 0, 0, 1, 0, 0, 0, 1, 1, 0x61, 1, 0, 0, 0, 1, 0, 7, 0, 2, 0x61, 0x21,
];

// The lines of the first packet, and the lines at the end.
fn fed(alloc: Global) -> Result<(Lines, Lines), NoMemory> {
    let mut bytes = Bytes::new(alloc);
    bytes.append(&[0x61, 0x21])?;
    let setup = Setup {
        switches: 1,
        replicas: 1,
        terms: Terms {
            t_switch: 1000,
            t_store: 1100,
            ratio: 50,
            mode: Mode::Strict,
        },
        linked: false,
    };
    let mut world = World::open(alloc, CountApp { alloc }, &setup)?;
    let sent = world.on(&Event::Feed { port: 7, bytes })?;
    Ok((sent, world.closing()?))
}

// Whether the one line is that of the Ask.
fn has_asked(lines: &Lines) -> bool {
    match lines.at(0) {
        Some(
            Line::Send {
                event: 1,
                frame: 0,
                from: Node::Switch(0),
                to: Node::Replica(0),
                kind: 1,
                bytes,
            },
        ) => lines.len() == 1 && bytes.as_slice() == ASK.as_slice(),
        _ => false,
    }
}

// A packet is fed, and the one line that it writes is that of an Ask with it; the line at the end is `end`.
#[test]
fn one_event(rt: HostRuntime) -> Result<(), Fail> {
    let (sent, closing) = fed(rt.alloc())?;
    let ends = matches!(closing.at(0), Some(Line::End));
    assert_eq!(rt; (has_asked(&sent), closing.len(), ends), (true, 1, true));
    Ok(())
}
