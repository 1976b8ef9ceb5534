use super::*;
use proto_model::Entry;
use rp_app::Delta;
use rp_base::{Cells, Key, NoMemory};
use std::alloc::Global;
use std::test::Fail;

// Applies an entry where it fits; whether it did.
fn tried(table: &mut LeaseTable, entry: Entry, now: u64) -> Result<bool, NoMemory> {
    if !table.fits(&entry) {
        return Ok(false);
    }
    table.apply(&entry, now)?;
    Ok(true)
}

fn grant(table: &mut LeaseTable, key: Key, epoch: u64, switch: u8) -> Result<bool, NoMemory> {
    let entry = Entry::Grant {
        key,
        epoch,
        switch,
        inc: 1,
        nonce: 9,
    };
    tried(table, entry, 10)
}

// A Put of cell 1 in epoch 1.
fn put(alloc: Global, table: &mut LeaseTable, key: Key, number: u64) -> Result<bool, NoMemory> {
    let mut delta = Delta::new(alloc);
    delta.set(1, 7)?;
    let entry = Entry::Put {
        key,
        epoch: 1,
        number,
        delta,
    };
    tried(table, entry, 11)
}

// A Snap of so many cells, each 5, in epoch 2.
fn snap(alloc: Global, table: &mut LeaseTable, key: Key, n: u16) -> Result<bool, NoMemory> {
    let mut cells = Cells::zeros(alloc, n)?;
    for i in 0..n as u64 {
        if i < cells.len() {
            cells.set(i, 5);
        }
    }
    let entry = Entry::Snap {
        key,
        epoch: 2,
        round: 1,
        cells,
    };
    tried(table, entry, 12)
}

#[test]
fn a_flow_goes_from_owner_to_owner(rt: HostRuntime) -> Result<(), Fail> {
    let alloc = rt.alloc();
    let (a, b) = (Key::of(b"a").ok_or("a")?, Key::of(b"b").ok_or("b")?);
    let mut table = LeaseTable::new(alloc, 2);
    assert!(rt; grant(&mut table, b, 1, 3)?);
    assert!(rt; !grant(&mut table, a, 2, 3)?);
    assert!(rt; grant(&mut table, a, 1, 3)?);
    assert!(rt; !put(alloc, &mut table, a, 2)?);
    assert!(rt; put(alloc, &mut table, a, 1)?);
    assert!(rt; grant(&mut table, a, 2, 4)?);
    let record = table.get(&a).ok_or("a record")?;
    assert_eq!(rt;
        (record.epoch, record.switch, record.last, record.moment),
        (2, 4, 0, 10)
    );
    assert_eq!(rt; record.cells.as_slice(), [0, 7].as_slice());
    Ok(())
}

#[test]
fn a_snapshot_has_all_cells(rt: HostRuntime) -> Result<(), Fail> {
    let alloc = rt.alloc();
    let a = Key::of(b"a").ok_or("a")?;
    let mut table = LeaseTable::new(alloc, 2);
    assert!(rt; grant(&mut table, a, 1, 3)?);
    assert!(rt; !snap(alloc, &mut table, a, 2)?);
    assert!(rt; grant(&mut table, a, 2, 3)?);
    assert!(rt; !snap(alloc, &mut table, a, 3)?);
    assert!(rt; snap(alloc, &mut table, a, 2)?);
    let first = table.at(0).ok_or("a first flow")?;
    assert_eq!(rt; first.0.as_slice(), b"a".as_slice());
    assert_eq!(rt; (first.1.last, first.1.moment), (1, 12));
    assert_eq!(rt; first.1.cells.as_slice(), [5, 5].as_slice());
    assert_eq!(rt; (table.len(), table.cells()), (1, 2));
    Ok(())
}
