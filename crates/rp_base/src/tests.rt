use super::*;
use std::alloc::Global;
use std::test::Fail;

fn bytes(alloc: Global, text: &[u8]) -> Result<Bytes, NoMemory> {
    let mut made = Bytes::new(alloc);
    made.append(text)?;
    Ok(made)
}

#[test]
fn lists_are_made_and_copied(rt: HostRuntime) -> Result<(), Fail> {
    let alloc = rt.alloc();
    let mut text = Bytes::new(alloc);
    text.push(7)?;
    let again = text.copy()?;
    assert_eq!(rt; again.len(), 1);
    assert_eq!(rt; again.at(0).copied(), Some(7));
    assert_eq!(rt; again.as_slice(), [7].as_slice());
    text.clear();
    assert_eq!(rt; text.len(), 0);

    let mut words = Words::new(alloc);
    words.push(again)?;
    let words = words.copy()?;
    assert_eq!(rt; words.len(), 1);
    let first = words.at(0).ok_or("a word")?;
    assert_eq!(rt; first.as_slice(), [7].as_slice());

    let mut cells = Cells::zeros(alloc, 1)?;
    assert_eq!(rt; cells.at(0).copied(), Some(0));
    assert!(rt; cells.len() == 1);
    cells.set(0, 9);
    let mut cells = cells.copy()?;
    cells.push(4)?;
    assert_eq!(rt; cells.as_slice(), [9, 4].as_slice());

    let mut lines = Lines::new(alloc);
    lines.push(Line::End)?;
    assert_eq!(rt; lines.len(), 1);
    assert!(rt; matches!(lines.at(0), Some(Line::End)));
    assert!(rt; matches!(lines.as_slice(), [Line::End]));
    Ok(())
}

#[test]
fn keys_have_1_to_16_bytes(rt: HostRuntime) -> Result<(), Fail> {
    let text = b"sixteen bytes!!!!";
    for (len, holds) in [(0, false), (1, true), (16, true), (17, false)] {
        assert!(rt; len <= text.len());
        let key = Key::of(&text[..len]);
        assert_eq!(rt; key.is_some(), holds, "at {len}");
        if let Some(key) = key {
            assert_eq!(rt; key.as_slice(), &text[..len]);
        }
    }
    Ok(())
}

// An advance of 1,005 against 1,000 is within 5 thousandths, one of 1,006 isn't.
#[test]
fn clocks_differ_by_the_ratio(rt: HostRuntime) {
    assert!(rt; rates_hold(&[1000, 1005], 5));
    assert!(rt; !rates_hold(&[1000, 1006], 5));
    assert!(rt; terms_hold(200, 201, 5));
    assert!(rt; !terms_hold(200, 200, 5));
}

#[test]
fn inputs_in_memory_are_loaded(rt: HostRuntime) -> Result<(), Fail> {
    let alloc = rt.alloc();
    let mut into = bytes(alloc, b"before")?;
    let mut sure = SureInputs {
        contents: Vec::new(alloc),
    };
    sure.contents.push(Content {
        name: bytes(alloc, b"a")?,
        bytes: bytes(alloc, b"hello")?,
    })?;
    sure.load(b"a", 2, &mut into)?;
    assert_eq!(rt; into.as_slice(), b"hel".as_slice());
    sure.load(b"b", 2, &mut into)?;
    assert_eq!(rt; into.len(), 0);

    let mut faulty = MemInputs {
        contents: sure.contents,
        failing: [1].to_vec(alloc)?,
        calls: 0,
        faults: 0,
    };
    faulty.load(b"a", 9, &mut into)?;
    assert_eq!(rt; into.as_slice(), b"hello".as_slice());
    assert_eq!(rt; faulty.load(b"a", 9, &mut into), Err(InputEnd::Failed));
    assert_eq!(rt; faulty.load(b"b", 9, &mut into), Err(InputEnd::Failed));
    assert_eq!(rt; faulty.faults, 2);
    Ok(())
}

#[test]
fn sinks_in_memory_keep_what_fits(rt: HostRuntime) -> Result<(), Fail> {
    let alloc = rt.alloc();
    let mut sure = SureSink {
        kept: Kept::with_room(alloc, 3)?,
    };
    write_all(&mut sure, b"abc")?;
    assert_eq!(rt; sure.kept.bytes.as_slice(), b"abc".as_slice());
    assert!(rt; sure.kept.whole);
    write_all(&mut sure, b"d")?;
    assert!(rt; !sure.kept.whole);

    let mut faulty = MemSink {
        kept: Kept::with_room(alloc, 9)?,
        most: 2,
        failing: [2].to_vec(alloc)?,
        calls: 0,
        faults: 0,
    };
    assert_eq!(rt; write_all(&mut faulty, b"abcde"), Err(Failed));
    assert_eq!(rt; faulty.kept.bytes.as_slice(), b"abcd".as_slice());
    assert_eq!(rt; faulty.faults, 1);
    Ok(())
}

#[test]
fn links_in_memory_keep_a_queue_a_node(rt: HostRuntime) -> Result<(), Fail> {
    let alloc = rt.alloc();
    let (switch, replica) = (Node::Switch(0), Node::Replica(0));
    let mut link = SureLink {
        post: Post::new(alloc),
    };
    let mut into = bytes(alloc, b"before")?;
    link.send(switch, replica, b"one")?;
    link.send(replica, switch, b"two")?;
    link.send(switch, replica, b"three")?;
    link.post.slip_in(switch, b"four")?;
    for (node, text) in [
        (replica, Some("one")),
        (switch, Some("two")),
        (replica, Some("three")),
        (replica, None),
        (switch, Some("four")),
    ] {
        let came = link.recv(node, &mut into)?;
        assert_eq!(rt; came, text.is_some());
        assert_eq!(rt; into.as_slice(), text.unwrap_or("").as_bytes());
    }
    assert_eq!(rt; link.post.sent.len(), 3);
    assert_eq!(rt; link.post.received.len(), 5);

    let mut faulty = MemLink {
        post: Post::new(alloc),
        failing_sends: [0].to_vec(alloc)?,
        failing_receives: [0].to_vec(alloc)?,
        sends: 0,
        receives: 0,
        faults: 0,
    };
    assert_eq!(rt; faulty.send(switch, replica, b"lost"), Err(LinkEnd::Failed));
    faulty.send(switch, replica, b"kept")?;
    assert_eq!(rt; faulty.recv(replica, &mut into), Err(LinkEnd::Failed));
    assert!(rt; faulty.recv(replica, &mut into)?);
    assert_eq!(rt; into.as_slice(), b"kept".as_slice());
    assert!(rt; !faulty.recv(replica, &mut into)?);
    assert_eq!(rt; faulty.faults, 2);
    Ok(())
}

#[test]
fn a_clock_in_memory_gives_its_list(rt: HostRuntime) -> Result<(), Fail> {
    let alloc = rt.alloc();
    let mut clock = ListClock::of([3, 3, 8].to_vec(alloc)?).ok_or("a rising list")?;
    for answer in [3, 3, 8, 8] {
        assert_eq!(rt; clock.now(), answer);
    }
    let mut empty = ListClock::of(Vec::new(alloc)).ok_or("an empty list")?;
    assert_eq!(rt; empty.now(), 0);
    assert!(rt; ListClock::of([2, 1].to_vec(alloc)?).is_none());
    assert!(rt; ListClock::of([(1 << 61) + 1].to_vec(alloc)?).is_none());
    Ok(())
}

#[test]
fn packets_and_outputs_are_copied(rt: HostRuntime) -> Result<(), Fail> {
    let alloc = rt.alloc();
    let packet = Packet {
        mark: 1,
        port: 7,
        bytes: bytes(alloc, b"a!")?,
    };
    let again = packet.copy()?;
    assert_eq!(rt; again.mark, 1);
    assert_eq!(rt; again.port, 7);
    assert_eq!(rt; again.bytes.as_slice(), b"a!".as_slice());
    let output = Output {
        mark: 2,
        port: 9,
        bytes: again.bytes,
    };
    let again = output.copy()?;
    assert_eq!(rt; again.mark, 2);
    assert_eq!(rt; again.port, 9);
    assert_eq!(rt; again.bytes.as_slice(), b"a!".as_slice());
    Ok(())
}
