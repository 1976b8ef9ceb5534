use super::*;
use arrayvec::ArrayVec;
use std::test::Fail;

#[test]
fn chunks_are_the_cells_at_the_begin(rt: HostRuntime) -> Result<(), Fail> {
    let mut snap = LazySnap::new(rt.alloc(), 34)?;
    snap.write(0, 7);
    snap.write(33, 9);
    assert_eq!(rt; snap.begin(1), Ok(()));
    snap.write(0, 8);
    snap.write(0, 10);
    snap.write(1, 5);
    let mut first = ArrayVec::new();
    snap.chunk(0, &mut first);
    assert_eq!(rt; first.len(), 32);
    assert_eq!(rt; first.as_slice()[0], 7);
    assert_eq!(rt; first.as_slice()[1], 0);
    snap.write(33, 4);
    let mut last = ArrayVec::new();
    snap.chunk(1, &mut last);
    assert!(rt; last.as_slice() == [0, 9].as_slice());
    assert_eq!(rt; snap.cells().at(0), Some(&10));
    Ok(())
}

#[test]
fn one_round_runs_at_a_time(rt: HostRuntime) -> Result<(), Fail> {
    let mut snap = LazySnap::new(rt.alloc(), 1)?;
    snap.write(0, 7);
    assert_eq!(rt; snap.begin(3), Ok(()));
    assert_eq!(rt; snap.begin(4), Err(Running { round: 3 }));
    snap.write(0, 8);
    snap.done();
    assert_eq!(rt; snap.begin(4), Ok(()));
    let mut cells = ArrayVec::new();
    snap.chunk(0, &mut cells);
    assert!(rt; cells.as_slice() == [8].as_slice());
    snap.write(0, 9);
    let mut again = ArrayVec::new();
    snap.chunk(0, &mut again);
    assert!(rt; again.as_slice() == [8].as_slice());
    Ok(())
}
