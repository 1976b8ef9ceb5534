use super::*;
use rp_base::{Bytes, Key, NoMemory, Node};
use std::alloc::Global;
use std::test::Fail;

// An Ask of switch 0 with a packet of one byte.
fn ask(alloc: Global, to: Node, key: Key, mark: u64) -> Result<Msg, NoMemory> {
    let mut bytes = Bytes::new(alloc);
    bytes.push(0x61)?;
    Ok(Msg {
        from: Node::Switch(0),
        to,
        body: Body::Ask {
            inc: 1,
            nonce: 1,
            key,
            load: Some(Carried {
                mark,
                port: 7,
                bytes,
            }),
        },
    })
}

#[test]
fn a_message_fits_by_its_nodes_and_numbers(rt: HostRuntime) -> Result<(), Fail> {
    let alloc = rt.alloc();
    let key = Key::of(&[0x61]).ok_or("a key")?;
    assert!(rt; ask(alloc, Node::Replica(4), key, 4294967295)?.fits());
    assert!(rt; !ask(alloc, Node::Replica(4), key, 4294967296)?.fits());
    assert!(rt; !ask(alloc, Node::Replica(5), key, 1)?.fits());
    assert!(rt; !ask(alloc, Node::Switch(1), key, 1)?.fits());
    Ok(())
}

#[test]
fn lists_of_one_member_are_copied(rt: HostRuntime) -> Result<(), Fail> {
    let mut chain = Chain::new();
    chain.push(3);
    assert_eq!(rt; chain.copy()?.as_slice(), [3].as_slice());
    let mut chunk = Chunk::new();
    chunk.push(9);
    assert_eq!(rt; chunk.copy()?.as_slice(), [9].as_slice());
    Ok(())
}
