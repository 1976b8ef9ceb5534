//! What is noted of each mark of a serial list, in one walk along the list: the greatest mark up to it, and what one switch makes of
//! its packet there.
ghost use Rattle.std.specs.Prelude.{◌≡◌, ◌↔◌, ◌&&◌, max, IfOk, OnOk, IsTrue};
ghost use Rattle.std.specs.Str.{bytes_eq};
ghost use Rattle.proto_model.specs.Legal.{folded};
ghost use Rattle.proto_safety.specs.LegalLines.{CellsAreFolded};
ghost use Rattle.report_audit.specs.Rising.{MarksRise};
ghost use Rattle.report_audit.specs.Notes.{notes_of, notes_along, all_noted};

use crate::outputs::process;
use indexmap::IndexMap;
use rp_app::App;
use rp_base::{Cells, Fed, Flow, NoMemory, Output};
use std::alloc::Global;

/// What is noted of a mark of a serial list.
#[derive(Debug, Drop)]
pub struct Note {
    /// The greatest mark of the list up to this one, itself counted.
    pub greatest: u64,
    /// The output of one switch after the marks before it.
    pub output: Option<Output>,
}

/// What is noted of each mark.
pub type Notes = IndexMap<u64, Note>;

fn greater(a: u64, b: u64) -> u64
    ensures { result ≡ max a b }
{
    a.max(b)
}

// Notes each mark of a list. Gives the cells after the list.
fn note_list<A: App>(
    alloc: Global,
    app: &A,
    feeds: &[Fed],
    marks: &[u64],
    notes: &mut Notes,
) -> Result<Cells, NoMemory>
    requires { MarksRise feeds.now }
    ensures cells { IfOk result (λ cells. cells ≡ folded (A.meaning app.now) feeds.now marks.now) }
    ensures notes { OnOk result (notes.new.entries ≡ all_noted notes.old.entries (notes_of (A.meaning app.now) feeds.now marks.now)) }
{
    let mut cells = Cells::zeros(alloc, app.cells())?;
    let mut greatest = 0;
    for mark in marks {
        greatest = greater(greatest, *mark);
        let output = process(alloc, app, feeds, *mark, &mut cells)?;
        notes.insert(*mark, Note { greatest, output })?;
    }
    Ok(cells)
}

// Whether a rule that was met so far is still met with a flow of these cells, where its list comes to those.
fn still_met(met: bool, folded: &Cells, cells: &Cells) -> bool
    ensures { result ≡ (met && bytes_eq folded.now cells.now) }
{
    met && folded.as_slice() == cells.as_slice()
}

// Notes each mark of each list. Gives whether the fourth rule is met: the cells of each flow are those after its list.
pub(crate) fn note_lists<A: App>(
    alloc: Global,
    app: &A,
    feeds: &[Fed],
    flows: &[Flow],
    notes: &mut Notes,
) -> Result<bool, NoMemory>
    requires { MarksRise feeds.now }
    ensures folded { IfOk result (λ met. IsTrue met ↔ CellsAreFolded (A.meaning app.now) feeds.now flows.now) }
    ensures notes { OnOk result (notes.new.entries ≡ all_noted notes.old.entries (notes_along (A.meaning app.now) feeds.now flows.now)) }
{
    let mut met = true;
    for flow in flows {
        let cells = note_list(alloc, app, feeds, flow.marks.as_slice(), notes)?;
        met = still_met(met, &cells, &flow.cells);
    }
    Ok(met)
}
