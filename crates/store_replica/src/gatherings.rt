//! The gathering of each flow that has sent chunks.
ghost use Rattle.std.specs.Prelude.{◌≡◌, ◌≤◌, [], length, IfOk, IfSome, OnOk, OnErr};
ghost use Rattle.proto_model.specs.ReplicaState.{whole_cells};
ghost use Rattle.snap_mode.specs.Rounds.{told};
ghost use Rattle.store_replica.specs.Gatherings.{HasWhole, IsPart, after_part, gathered_with};

use crate::part::Part;
use key_table::KeyTable;
use rp_base::{Cells, NoMemory};
use snap_mode::{Gather, Gathered, SnapPart};
use std::alloc::Global;
use std::marker::Model;

/// The gathering of each flow that has sent chunks. Flows have at most 256 cells.
#[derive(Drop)]
pub(crate) struct GatheringTable {
    cells: u16,
    rows: KeyTable<Gather>,
    alloc: Global,
}

impl Model for GatheringTable {
    ghost use Rattle.std.specs.Prelude.{◌≤◌};
    ghost use Rattle.store_replica.specs.Gatherings.{Gatherings, AreGatherings};

    ghost Value = { Gatherings };

    ghost view = { λ t. record { cell_count = t.cells; table = t.rows } };

    ghost invariant = { λ t. (t.cells ≤ 256) × AreGatherings t.cells t.rows };
}

// Cells that are kept.
fn kept(alloc: Global, cells: &[u64]) -> Result<Cells, NoMemory>
    ensures { IfOk result (λ kept. kept ≡ cells.now) }
{
    let mut kept = Cells::new(alloc);
    for cell in cells {
        kept.push(*cell)?;
    }
    Ok(kept)
}

impl GatheringTable {
    /// Nothing is gathered; flows have `cells` cells. Takes no memory.
    pub(crate) fn new(alloc: Global, cells: u16) -> GatheringTable
        requires { cells ≤ 256 }
        ensures { result ≡ record { cell_count = cells; table = [] } }
    {
        GatheringTable {
            cells,
            rows: KeyTable::new(alloc),
            alloc,
        }
    }

    /// Keeps a chunk, and gives the cells of its round where that is whole.
    ///
    /// # Errors
    /// `NoMemory`; then nothing is said of the chunk.
    pub(crate) fn take(&mut self, part: Part) -> Result<Option<Cells>, NoMemory>
        requires { IsPart self.old.cell_count part }
        ensures kept { OnOk result (self.new ≡ after_part self.old part) }
        ensures whole { IfOk result (λ cells. cells ≡ whole_cells (gathered_with self.old.table part)) }
        ensures long { IfOk result (λ whole. IfSome whole (λ cells. length cells ≡ self.old.cell_count)) }
        ensures same { self.new.cell_count ≡ self.old.cell_count }
    {
        match self.keep(part)? {
            Gathered::More => Ok(None),
            Gathered::Whole(cells) => Ok(Some(kept(self.alloc, cells.as_slice())?)),
        }
    }

    // Keeps a chunk.
    fn keep(&mut self, part: Part) -> Result<Gathered, NoMemory>
        requires { IsPart self.old.cell_count part }
        ensures ok { OnOk result (self.new ≡ after_part self.old part) }
        ensures whole { IfOk result (λ got. got ≡ told (whole_cells (gathered_with self.old.table part))) }
        ensures long { IfOk result (λ got. HasWhole self.old.cell_count got) }
        ensures err { OnErr result (self.new ≡ self.old) }
    {
        let key = part.key;
        let chunk = SnapPart {
            epoch: part.epoch,
            round: part.round,
            chunk: part.chunk,
            chunks: part.chunks,
            cells: part.cells,
        };
        match self.rows.get_mut(&key) {
            Some(gather) => Ok(gather.take(&chunk)),
            None => {
                let mut gather = Gather::new(self.alloc, self.cells)?;
                let got = gather.take(&chunk);
                self.rows.put(key, gather)?;
                Ok(got)
            }
        }
    }
}
