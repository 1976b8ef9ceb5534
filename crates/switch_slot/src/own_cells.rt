//! The cells of a slot, which takes the memory for them with its first Grant.
ghost use Rattle.std.specs.Prelude.{◌≡◌, ◌<◌, ◌≤◌, ◌^◌, All, None, Some, true, is_some, length, option_map, OnOk, OnErr, IfSome};
ghost use Rattle.rp_app.specs.Application.{written};
ghost use Rattle.proto_model.specs.Slot.{Round};
ghost use Rattle.switch_slot.specs.Rounds.{advanced, part_of};
ghost use Rattle.switch_slot.specs.Slots.{cells_of};

use crate::cells::{Part, SlotCells};
use rp_app::Delta;
use rp_base::{Cells, NoMemory};
use std::alloc::Global;

/// The cells become these, at most 256, and no round runs. Memory is taken where there were none, or another number of them.
///
/// # Errors
/// `NoMemory`; nothing changes.
pub(crate) fn fill(
    alloc: Global,
    cells: &mut Option<SlotCells>,
    from: &Cells,
) -> Result<(), NoMemory>
    requires { length from.now ≤ 256 }
    ensures value { OnOk result (cells_of cells.new ≡ record { cells = from.now; round = None }) }
    ensures there { OnOk result (is_some cells.new ≡ true) }
    ensures err { OnErr result (cells.new ≡ cells.old) }
{
    let count = from.len();
    if let Some(own) = cells {
        if own.cells().len() == count {
            own.fill(from);
            return Ok(());
        }
    }
    let mut own = SlotCells::zeros(alloc, count as u16)?;
    own.fill(from);
    *cells = Some(own);
    Ok(())
}

/// Gives each cell of the delta its value. All of them are there.
pub(crate) fn write(cells: &mut Option<SlotCells>, delta: &Delta)
    requires { All (λ d. d.0 < length (cells_of cells.old).cells) delta.now }
    ensures value { cells_of cells.new ≡ record (cells_of cells.old) { cells = written (cells_of cells.old).cells delta.now } }
    ensures there { is_some cells.new ≡ is_some cells.old }
{
    if let Some(own) = cells {
        own.write(delta);
    }
}

/// A round of the cells as they are now begins, with this number, at `now`, which is at most 2^62. There are cells, and no round runs.
pub(crate) fn begin(cells: &mut Option<SlotCells>, number: u64, now: u64)
    requires there { is_some cells.old ≡ true }
    requires idle { (cells_of cells.old).round ≡ None }
    requires moment { now ≤ 2 ^ 62 }
    ensures value { cells_of cells.new ≡ record (cells_of cells.old) { round = Some (record { number = number; begun = now; chunk = 0; cells = (cells_of cells.old).cells }) } }
    ensures there { is_some cells.new ≡ is_some cells.old }
{
    if let Some(own) = cells {
        own.begin(number, now);
    }
}

/// The number of the round that runs, with the moment of its begin, at most 2^62.
pub(crate) fn round(cells: &Option<SlotCells>) -> Option<(u64, u64)>
    ensures value { result ≡ option_map (λ (r : Round). (r.number, r.begun)) (cells_of cells.now).round }
    ensures early { IfSome result (λ r. r.1 ≤ 2 ^ 62) }
{
    match cells {
        Some(own) => own.round(),
        None => None,
    }
}

/// The next chunk of the round that runs, and after the last one the first; `None` exactly where no round runs.
pub(crate) fn next_part(cells: &mut Option<SlotCells>) -> Option<Part>
    ensures part { result ≡ option_map part_of (cells_of cells.old).round }
    ensures value { cells_of cells.new ≡ record (cells_of cells.old) { round = option_map advanced (cells_of cells.old).round } }
    ensures there { is_some cells.new ≡ is_some cells.old }
{
    match cells {
        Some(own) => own.next_part(),
        None => None,
    }
}

/// No round runs any more.
pub(crate) fn done(cells: &mut Option<SlotCells>)
    ensures value { cells_of cells.new ≡ record (cells_of cells.old) { round = None } }
    ensures there { is_some cells.new ≡ is_some cells.old }
{
    if let Some(own) = cells {
        own.done();
    }
}
