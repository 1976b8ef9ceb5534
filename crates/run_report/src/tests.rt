use super::*;
use rp_base::{Bytes, DropCause, Key, Line, Lost, NoMemory, Node, Numbers, Refusal};
use std::alloc::Global;
use std::test::Fail;

fn bytes(alloc: Global, text: &[u8]) -> Result<Bytes, NoMemory> {
    let mut made = Bytes::new(alloc);
    made.append(text)?;
    Ok(made)
}

fn numbers(alloc: Global, list: &[u64]) -> Result<Numbers, NoMemory> {
    let mut made = Numbers::new(alloc);
    for n in list {
        made.push(*n)?;
    }
    Ok(made)
}

// Lines of worked runs, with their texts.
fn event_lines(alloc: Global) -> Result<Vec<(Line, &'static str)>, Fail> {
    let mut lines = Vec::new(alloc);
    lines.push((
        Line::Release {
            event: 5,
            mark: 1,
            port: 7,
            bytes: bytes(alloc, b"\0\0\0\0\0\0\0\x01a!")?,
        },
        "release 5 1 7 00000000000000016121\n",
    ))?;
    lines.push((
        Line::Release {
            event: 1,
            mark: 1,
            port: 65535,
            bytes: Bytes::new(alloc),
        },
        "release 1 1 65535 -\n",
    ))?;
    lines.push((
        Line::Drop {
            event: 1027,
            mark: 1027,
            cause: DropCause::Mirror,
        },
        "drop 1027 1027 mirror\n",
    ))?;
    lines.push((
        Line::Lost {
            event: 11,
            cause: Lost::Config,
        },
        "lost 11 config\n",
    ))?;
    lines.push((
        Line::Refused {
            event: 2,
            cause: Refusal::NoneLeft,
        },
        "refused 2 NoneLeft\n",
    ))?;
    lines.push((
        Line::Stranger {
            event: 3,
            node: Node::Replica(4),
        },
        "stranger 3 r4\n",
    ))?;
    lines.push((
        Line::Send {
            event: 1,
            frame: 0,
            from: Node::Switch(0),
            to: Node::Master,
            kind: 1,
            bytes: bytes(alloc, b"RP\x01\xff")?,
        },
        "send 1 0 s0 m Ask 525001ff\n",
    ))?;
    Ok(lines)
}

fn end_lines(alloc: Global, key: Key) -> Result<Vec<(Line, &'static str)>, Fail> {
    let mut lines = Vec::new(alloc);
    lines.push((
        Line::Serial {
            key,
            marks: numbers(alloc, &[1, 6, 7, 8])?,
        },
        "serial 61 1 6 7 8\n",
    ))?;
    lines.push((
        Line::Serial {
            key,
            marks: numbers(alloc, &[])?,
        },
        "serial 61\n",
    ))?;
    lines.push((
        Line::Epoch {
            key,
            epoch: 2,
            kept: 0,
            marks: numbers(alloc, &[18])?,
        },
        "epoch 61 2 0 18\n",
    ))?;
    lines.push((
        Line::Cells {
            key,
            cells: numbers(alloc, &[18446744073709551615])?,
        },
        "cells 61 18446744073709551615\n",
    ))?;
    lines.push((Line::End, "end\n"))?;
    Ok(lines)
}

// The text of a line whose kind a frame can have.
fn text_of(alloc: Global, l: &Line) -> Result<Bytes, NoMemory> {
    match l {
        Line::Send { kind: 1..=11, .. } => line(alloc, l),
        Line::Send { .. } => Ok(Bytes::new(alloc)),
        _ => line(alloc, l),
    }
}

#[test]
fn lines_have_their_texts(rt: HostRuntime) -> Result<(), Fail> {
    let key = Key::of(b"a").ok_or("a key")?;
    let lines = event_lines(rt.alloc())?;
    for (l, text) in &lines {
        assert_eq!(rt; text_of(rt.alloc(), l)?.as_slice(), text.as_bytes());
    }
    for (l, text) in &end_lines(rt.alloc(), key)? {
        assert_eq!(rt; text_of(rt.alloc(), l)?.as_slice(), text.as_bytes());
    }
    Ok(())
}
