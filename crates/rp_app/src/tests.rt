use super::*;
use rp_base::{Bytes, Cells, NoMemory, Packet};
use std::alloc::Global;
use std::test::Fail;

fn packet(alloc: Global, text: &[u8]) -> Result<Packet, NoMemory> {
    let mut bytes = Bytes::new(alloc);
    bytes.append(text)?;
    Ok(Packet {
        mark: 5,
        port: 7,
        bytes,
    })
}

// Four packets of one flow, of which the second and the fourth only read the count.
#[test]
fn packets_are_counted(rt: HostRuntime) -> Result<(), Fail> {
    let alloc = rt.alloc();
    let app = CountApp { alloc };
    assert_eq!(rt; app.cells(), 1);
    let mut cells = Cells::zeros(alloc, 1)?;
    for (text, count, writes) in [
        ([0x61, 0x21], 1, true),
        ([0x61, 0x3f], 1, false),
        ([0x61, 0x21], 2, true),
        ([0x61, 0x3f], 2, false),
    ] {
        let p = packet(alloc, &text)?;
        let key = app.key_of(&p)?.ok_or("a key")?;
        assert_eq!(rt; key.as_slice(), [0x61].as_slice());
        let mut delta = Delta::new(alloc);
        assert!(rt; cells.len() == 1);
        let out = app.step(&cells, &p, &mut delta)?.ok_or("an output")?;
        assert_eq!(rt; (out.mark, out.port), (5, 7));
        assert_eq!(rt;
            out.bytes.as_slice(),
            [0, 0, 0, 0, 0, 0, 0, count, text[0], text[1]].as_slice()
        );
        assert_eq!(rt; delta.len(), writes as u64);
        if let Some((cell, v)) = delta.at(0) {
            assert_eq!(rt; cell, 0);
            cells.set(0, v);
        }
    }
    assert_eq!(rt; cells.as_slice(), [2].as_slice());
    Ok(())
}

#[test]
fn ends_of_the_ranges(rt: HostRuntime) -> Result<(), Fail> {
    let alloc = rt.alloc();
    let app = CountApp { alloc };
    let mut delta = Delta::new(alloc);
    let mut cells = Cells::new(alloc);
    cells.push(u64::MAX)?;
    assert!(rt; cells.len() == 1);

    let empty = packet(alloc, b"")?;
    assert!(rt; app.key_of(&empty)?.is_none());
    assert!(rt; app.step(&cells, &empty, &mut delta)?.is_none());
    assert_eq!(rt; delta.len(), 0);

    // 1,492 bytes are an output of 1,500, one byte more is none; the count goes from 2^64 - 1 to 0.
    for (size, some) in [(1492, true), (1493, false)] {
        let text = vec![in alloc; 0x61; size]?;
        let p = packet(alloc, &text)?;
        let mut delta = Delta::new(alloc);
        let out = app.step(&cells, &p, &mut delta)?;
        assert_eq!(rt; out.is_some(), some);
        assert_eq!(rt; delta.as_slice(), [(0, 0)].as_slice());
    }
    Ok(())
}

#[test]
fn a_delta_has_rising_cells(rt: HostRuntime) -> Result<(), Fail> {
    let mut delta = Delta::new(rt.alloc());
    for (cell, v) in [(7, 1), (255, 2), (0, 3), (7, 4)] {
        delta.set(cell, v)?;
    }
    let again = delta.copy()?;
    assert_eq!(rt; again.as_slice(), [(0, 3), (7, 4), (255, 2)].as_slice());
    assert_eq!(rt; again.at(1), Some((7, 4)));
    delta.clear();
    assert_eq!(rt; delta.len(), 0);
    Ok(())
}
