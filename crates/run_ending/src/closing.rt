//! The lines that a report ends with, made of the notes of the run.
ghost use Rattle.std.specs.Prelude.{◌≡◌, ◌++◌, ℕ, map, flat_map, IfOk, OnOk};
ghost use Rattle.proto_model.specs.World.{World};
ghost use Rattle.proto_model.specs.EndLines.{end_lines};
ghost use Rattle.run_history.specs.Shown.{shown};
ghost use Rattle.run_ending.specs.Endings.{closing_shown, epoch_line, flow_shown, grants_of, granted_to, item_lines_in, noted, serial_in, IsEnd};

use crate::epoch_table::{EpochTable, FlowEpoch};
use crate::notes::{Grants, grants_of, noted};
use lease_table::LeaseTable;
use proto_data::Mode;
use proto_model::Record;
use rp_base::{Key, Line, Lines, Marks, NoMemory};
use run_history::{Booked, Journaled, RoundBegun};
use std::alloc::Global;
use std::marker::Model;

// The epochs granted to a flow.
fn granted_to<'a>(grants: &'a Grants, key: &Key) -> &'a [u64]
    ensures { result.now ≡ granted_to grants.now key.now }
{
    match grants.get(key) {
        Some(epochs) => epochs.as_slice(),
        None => &[],
    }
}

// The marks of a flow's serial list.
fn serial(alloc: Global, epochs: &EpochTable, key: &Key, granted: &[u64]) -> Result<Marks, NoMemory>
    ensures { IfOk result (λ marks. marks ≡ serial_in epochs.now key.now granted.now) }
{
    let mut marks = Marks::new(alloc);
    for epoch in granted {
        let at = FlowEpoch {
            key: *key,
            epoch: *epoch,
        };
        epochs.push_closed(&at, &mut marks)?;
    }
    Ok(marks)
}

// The lines of these epochs of a flow come behind.
fn push_epochs(
    alloc: Global,
    lines: &mut Lines,
    epochs: &EpochTable,
    key: &Key,
    granted: &[u64],
) -> Result<(), NoMemory>
    ensures { OnOk result (lines.new ≡ lines.old ++ map (epoch_line epochs.now key.now) granted.now) }
{
    for epoch in granted {
        let at = FlowEpoch {
            key: *key,
            epoch: *epoch,
        };
        let kept = epochs.kept(&at);
        let marks = epochs.marks(alloc, &at)?;
        lines.push(Line::Epoch {
            key: *key,
            epoch: *epoch,
            kept,
            marks,
        })?;
    }
    Ok(())
}

// The lines of a flow before its cells come behind.
fn push_items(
    alloc: Global,
    mode: Mode,
    lines: &mut Lines,
    epochs: &EpochTable,
    key: &Key,
    granted: &[u64],
) -> Result<(), NoMemory>
    ensures { OnOk result (lines.new ≡ lines.old ++ item_lines_in mode epochs.now key.now granted.now) }
{
    match mode {
        Mode::Strict => {
            let marks = serial(alloc, epochs, key, granted)?;
            lines.push(Line::Serial { key: *key, marks })
        }
        Mode::Snapshot(_bound) => push_epochs(alloc, lines, epochs, key, granted),
    }
}

// The lines of a flow come behind.
fn push_flow(
    alloc: Global,
    mode: Mode,
    lines: &mut Lines,
    grants: &Grants,
    epochs: &EpochTable,
    key: &Key,
    record: &Record,
) -> Result<(), NoMemory>
    ensures { OnOk result (lines.new ≡ lines.old ++ flow_shown mode grants.now epochs.now (key.now, record.now)) }
{
    let granted = granted_to(grants, key);
    push_items(alloc, mode, lines, epochs, key, granted)?;
    lines.push(Line::Cells {
        key: *key,
        cells: record.cells.copy()?,
    })?;
    Ok(())
}

// The lines of all flows come behind.
fn push_flows(
    alloc: Global,
    mode: Mode,
    lines: &mut Lines,
    grants: &Grants,
    epochs: &EpochTable,
    leases: &LeaseTable,
) -> Result<(), NoMemory>
    ensures { OnOk result (lines.new ≡ lines.old ++ flat_map (flow_shown mode grants.now epochs.now) leases.now.records) }
{
    for place in 0..leases.len() {
        if let Some((key, record)) = leases.at(place as usize) {
            push_flow(alloc, mode, lines, grants, epochs, key, record)?;
        }
    }
    Ok(())
}

// The end lines of these records, of this book and this history.
fn lines_of(
    alloc: Global,
    mode: Mode,
    leases: &LeaseTable,
    book: &[Booked],
    items: &[Journaled],
    rounds: &[RoundBegun],
) -> Result<Lines, NoMemory>
    ensures { IfOk result (λ lines. lines ≡ closing_shown mode (grants_of book.now) (noted book.now items.now rounds.now) leases.now.records) }
{
    let grants = grants_of(alloc, book)?;
    let epochs = noted(alloc, book, items, rounds)?;
    let mut lines = Lines::new(alloc);
    push_flows(alloc, mode, &mut lines, &grants, &epochs, leases)?;
    lines.push(Line::End)?;
    Ok(lines)
}

/// The lines that end the report of a run in this mode, from the committed records and book, the processed packets and the
/// begun rounds.
///
/// Of each flow, in order of first Grant: in strict mode its serial list, in snapshot mode a line for each of its epochs, then
/// its cells. The time grows with the length of what is given and of the lines.
///
/// # Errors
/// `NoMemory`.
pub fn closing_lines(
    alloc: Global,
    mode: Mode,
    leases: &LeaseTable,
    book: &[Booked],
    items: &[Journaled],
    rounds: &[RoundBegun],
) -> Result<Lines, NoMemory>
    ensures { IfOk result (λ lines. (cells : ℕ) (w : World) → IsEnd cells w mode leases.now.records book.now items.now rounds.now → lines ≡ shown (end_lines cells w)) }
{
    lines_of(alloc, mode, leases, book, items, rounds)
}
