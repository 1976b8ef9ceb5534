//! The notes of a run: the epochs granted to each flow, and what the book and the history have of each epoch.
ghost use Rattle.std.specs.Prelude.{◌≡◌, ◌++◌, ◌∷◌, [], ℕ, List, IfOk, OnOk};
ghost use Rattle.run_ending.specs.declared.epoch_notes.Note.{Note as NoteValue};
ghost use Rattle.run_ending.specs.Endings.{entry_epoch, entry_number, entries_noted, grants_of, items_noted, noted, rounds_noted, with_grant};

use crate::epoch_notes::{Begin, Note, Processed};
use crate::epoch_table::{EpochTable, FlowEpoch};
use key_table::KeyTable;
use proto_model::Entry;
use rp_base::{NoMemory, Numbers};
use run_history::{Booked, Journaled, RoundBegun};
use std::alloc::Global;
use std::marker::Model;

/// The epochs granted to each flow, in order.
pub type Grants = KeyTable<Numbers>;

// The epoch that an entry grants comes last.
fn note_grant(alloc: Global, grants: &mut Grants, entry: &Entry) -> Result<(), NoMemory>
    ensures { OnOk result (grants.new ≡ with_grant grants.old entry.now) }
{
    let Entry::Grant { key, epoch, .. } = entry else {
        return Ok(());
    };
    if let Some(epochs) = grants.get_mut(key) {
        epochs.push(*epoch)?;
        return Ok(());
    }
    let mut epochs = Numbers::new(alloc);
    epochs.push(*epoch)?;
    grants.put(*key, epochs)?;
    Ok(())
}

/// The epochs that a book grants.
///
/// # Errors
/// `NoMemory`.
pub fn grants_of(alloc: Global, book: &[Booked]) -> Result<Grants, NoMemory>
    ensures { IfOk result (λ grants. grants ≡ grants_of book.now) }
{
    let mut grants = KeyTable::new(alloc);
    for booked in book {
        note_grant(alloc, &mut grants, &booked.entry)?;
    }
    Ok(grants)
}

// The epoch of an entry, and its number there.
fn entry_note(entry: &Entry) -> (FlowEpoch, Note)
    ensures epoch { result.0 ≡ entry_epoch entry.now }
    ensures note { result.1 ≡ NoteValue.Number (entry_number entry.now) }
{
    match entry {
        Entry::Grant { key, epoch, .. } => (
            FlowEpoch {
                key: *key,
                epoch: *epoch,
            },
            Note::Number(0),
        ),
        Entry::Put {
            key,
            epoch,
            number,
            ..
        } => (
            FlowEpoch {
                key: *key,
                epoch: *epoch,
            },
            Note::Number(*number),
        ),
        Entry::Snap {
            key,
            epoch,
            round,
            ..
        } => (
            FlowEpoch {
                key: *key,
                epoch: *epoch,
            },
            Note::Number(*round),
        ),
    }
}

fn note_entries(epochs: &mut EpochTable, book: &[Booked]) -> Result<(), NoMemory>
    ensures { OnOk result (epochs.new ≡ entries_noted epochs.old book.now) }
{
    for booked in book {
        let (at, note) = entry_note(&booked.entry);
        epochs.note(at, note)?;
    }
    Ok(())
}

fn note_items(epochs: &mut EpochTable, items: &[Journaled]) -> Result<(), NoMemory>
    ensures { OnOk result (epochs.new ≡ items_noted epochs.old items.now) }
{
    let mut place: u64 = 0;
    for journaled in items {
        let item = &journaled.item;
        let at = FlowEpoch {
            key: item.key,
            epoch: item.epoch,
        };
        let processed = Processed {
            number: item.number,
            mark: item.mark,
            place,
        };
        epochs.note(at, Note::Item(processed))?;
        place += 1;
    }
    Ok(())
}

fn note_rounds(epochs: &mut EpochTable, rounds: &[RoundBegun]) -> Result<(), NoMemory>
    ensures { OnOk result (epochs.new ≡ rounds_noted epochs.old rounds.now) }
{
    for round in rounds {
        let at = FlowEpoch {
            key: round.begun.key,
            epoch: round.begun.epoch,
        };
        let begin = Begin {
            round: round.begun.round,
            items_before: round.items_before,
        };
        epochs.note(at, Note::Round(begin))?;
    }
    Ok(())
}

/// The notes of a book, of the processed packets and of the begun rounds.
///
/// # Errors
/// `NoMemory`.
pub fn noted(
    alloc: Global,
    book: &[Booked],
    items: &[Journaled],
    rounds: &[RoundBegun],
) -> Result<EpochTable, NoMemory>
    ensures { IfOk result (λ epochs. epochs ≡ noted book.now items.now rounds.now) }
{
    let mut epochs = EpochTable::new(alloc);
    note_entries(&mut epochs, book)?;
    note_items(&mut epochs, items)?;
    note_rounds(&mut epochs, rounds)?;
    Ok(epochs)
}
