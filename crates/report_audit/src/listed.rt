//! The second and the third rule, by what is noted of each mark: a released mark with a key is listed there, has its noted output and
//! is released once; none is released before a mark up to it in its list was fed.
ghost use Rattle.std.specs.Prelude.{◌≡◌, ◌≢◌, ◌↔◌, Some, IfOk, IsTrue};
ghost use Rattle.proto_model.specs.Feeds.{Each, Pairwise, key_at};
ghost use Rattle.report_audit.specs.Rising.{MarksRise, is_keyed, marks_keyed};
ghost use Rattle.report_audit.specs.Notes.{noted_output, AsNoted, InTime, KeyedAreNoted};

use crate::apart::are_apart;
use crate::feeds::key_in;
use crate::notes::Notes;
use crate::outputs::is_output;
use rp_app::App;
use rp_base::{Fed, Marks, NoMemory, Output, Released};
use std::alloc::Global;

// Whether this mark has a key, where those with a key are asked for, or none, where those without one are.
fn is_keyed<A: App>(app: &A, feeds: &[Fed], mark: u64, keyed: bool) -> Result<bool, NoMemory>
    requires { MarksRise feeds.now }
    ensures { IfOk result (λ is. is ≡ is_keyed keyed (key_at (A.meaning app.now) feeds.now mark)) }
{
    match key_in(app, feeds, mark)? {
        Some(_) => Ok(keyed),
        None => Ok(!keyed),
    }
}

// The marks of the releases that have a key, or of those that have none.
fn marks_keyed<A: App>(
    alloc: Global,
    app: &A,
    feeds: &[Fed],
    releases: &[Released],
    keyed: bool,
) -> Result<Marks, NoMemory>
    requires { MarksRise feeds.now }
    ensures { IfOk result (λ marks. marks ≡ marks_keyed (A.meaning app.now) feeds.now keyed releases.now) }
{
    let mut marks = Marks::new(alloc);
    for r in releases {
        if is_keyed(app, feeds, r.output.mark, keyed)? {
            marks.push(r.output.mark)?;
        }
    }
    Ok(marks)
}

// Whether no mark of those with a key, or of those without one, is released twice.
pub(crate) fn released_once<A: App>(
    alloc: Global,
    app: &A,
    feeds: &[Fed],
    releases: &[Released],
    keyed: bool,
) -> Result<bool, NoMemory>
    requires { MarksRise feeds.now }
    ensures { IfOk result (λ once. IsTrue once ↔ Pairwise (λ a b. a ≢ b) (marks_keyed (A.meaning app.now) feeds.now keyed releases.now)) }
{
    let marks = marks_keyed(alloc, app, feeds, releases, keyed)?;
    are_apart(alloc, marks.as_slice())
}

// Whether this output is noted.
fn is_noted(notes: &Notes, output: &Output) -> bool
    ensures { IsTrue result ↔ (noted_output notes.now.entries output.now.mark ≡ Some output.now) }
{
    match notes.get(&output.mark) {
        Some(note) => is_output(&note.output, output),
        None => false,
    }
}

// Whether each released mark with a key has the output that is noted of it.
fn keyed_as_noted<A: App>(
    app: &A,
    feeds: &[Fed],
    releases: &[Released],
    notes: &Notes,
) -> Result<bool, NoMemory>
    requires { MarksRise feeds.now }
    ensures { IfOk result (λ met. IsTrue met ↔ Each (AsNoted (A.meaning app.now) feeds.now notes.now.entries) releases.now) }
{
    for r in releases {
        if key_in(app, feeds, r.output.mark)?.is_some() && !is_noted(notes, &r.output) {
            return Ok(false);
        }
    }
    Ok(true)
}

// Whether the second rule is met, by what is noted.
pub(crate) fn keyed_are_noted<A: App>(
    alloc: Global,
    app: &A,
    feeds: &[Fed],
    releases: &[Released],
    notes: &Notes,
) -> Result<bool, NoMemory>
    requires { MarksRise feeds.now }
    ensures { IfOk result (λ met. IsTrue met ↔ KeyedAreNoted (A.meaning app.now) feeds.now notes.now.entries releases.now) }
{
    if !keyed_as_noted(app, feeds, releases, notes)? {
        return Ok(false);
    }
    released_once(alloc, app, feeds, releases, true)
}

// Whether the third rule is met, by what is noted: each mark is released no earlier than the marks up to it were fed.
pub(crate) fn released_in_time(releases: &[Released], notes: &Notes) -> bool
    ensures { IsTrue result ↔ Each (InTime notes.now.entries) releases.now }
{
    for r in releases {
        if let Some(note) = notes.get(&r.output.mark) {
            if r.event < note.greatest {
                return false;
            }
        }
    }
    true
}
