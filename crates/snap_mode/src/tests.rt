ghost use Rattle.std.specs.Prelude.{◌≡◌, ◌<◌, length};

use super::*;
use proto_data::Chunk;
use std::test::Fail;

// The cells of a chunk: so many, each with this value.
fn chunk_of(n: u64, value: u64) -> Chunk {
    let mut cells = Chunk::new();
    for _ in 0..n {
        if cells.as_slice().len() < 32 {
            cells.push(value);
        }
    }
    cells
}

// How many cells a whole round has, its first and its last one; 0 where another chunk is missing.
fn seen(gathered: Gathered) -> (usize, Option<u64>, Option<u64>) {
    match gathered {
        Gathered::More => (0, None, None),
        Gathered::Whole(cells) => {
            let cells = cells.as_slice();
            (cells.len(), cells.first().copied(), cells.last().copied())
        }
    }
}

// What is seen once a chunk came of a round of two.
fn taken(
    gather: &mut Gather,
    round: u64,
    chunk: u8,
    cells: Chunk,
) -> (usize, Option<u64>, Option<u64>)
    requires place { chunk < 2 }
    requires count { length gather.old.parts ≡ 2 }
    ensures { length gather.new.parts ≡ 2 }
{
    seen(gather.take(&SnapPart {
        epoch: 3,
        round,
        chunk,
        chunks: 2,
        cells,
    }))
}

#[test]
fn a_round_is_whole_once_each_chunk_came(rt: HostRuntime) -> Result<(), Fail> {
    let mut gather = Gather::new(rt.alloc(), 40)?;
    let none = (0, None, None);
    let whole = (40, Some(6), Some(7));
    assert_eq!(rt; taken(&mut gather, 1, 1, chunk_of(8, 5)), none);
    // one of the next round empties what came
    assert_eq!(rt; taken(&mut gather, 2, 0, chunk_of(32, 6)), none);
    assert_eq!(rt; taken(&mut gather, 2, 1, chunk_of(8, 7)), whole);
    // a chunk that comes again changes nothing
    assert_eq!(rt; taken(&mut gather, 2, 0, chunk_of(32, 6)), whole);
    Ok(())
}

#[test]
fn an_update_may_wait_for_less_than_the_bound(rt: HostRuntime) -> Result<(), Fail> {
    let mut ages = Ages::new();
    assert!(rt; ages.may(100, 0));
    ages.wrote(5, false);
    ages.wrote(7, false);
    assert_eq!(rt; (ages.may(14, 10), ages.may(15, 10)), (true, false));
    // a round begins at 9, and is done: what was written while it ran is missing from it
    ages.wrote(12, true);
    ages.wrote(13, true);
    assert_eq!(rt; (ages.may(14, 10), ages.may(15, 10)), (true, false));
    ages.acked();
    assert!(rt; ages.is_late());
    assert_eq!(rt; (ages.may(21, 10), ages.may(22, 10)), (true, false));
    ages.acked();
    assert_eq!(rt; (ages.is_late(), ages.may(1000, 10)), (false, true));
    Ok(())
}
