//! The first rule: each mark of a list was fed, has the list's key and stands once over all lists.
ghost use Rattle.std.specs.Prelude.{◌≡◌, ◌↔◌, ◌++◌, Some, IfOk, OnOk, IsTrue};
ghost use Rattle.proto_model.specs.Feeds.{Each, key_at};
ghost use Rattle.proto_model.specs.Legal.{all_marks};
ghost use Rattle.proto_safety.specs.LegalLines.{ListsAreFed};
ghost use Rattle.report_audit.specs.Rising.{MarksRise, HasKey};

use crate::apart::are_apart;
use crate::feeds::key_in;
use rp_app::App;
use rp_base::{Fed, Flow, Key, Marks, NoMemory};
use std::alloc::Global;

// Whether this mark was fed and has this key.
fn has_key<A: App>(app: &A, feeds: &[Fed], key: &Key, mark: u64) -> Result<bool, NoMemory>
    requires { MarksRise feeds.now }
    ensures { IfOk result (λ has. IsTrue has ↔ HasKey (A.meaning app.now) feeds.now key.now mark) }
{
    match key_in(app, feeds, mark)? {
        Some(found) => Ok(found.as_slice() == key.as_slice()),
        None => Ok(false),
    }
}

fn marks_have_key<A: App>(
    app: &A,
    feeds: &[Fed],
    key: &Key,
    marks: &[u64],
) -> Result<bool, NoMemory>
    requires { MarksRise feeds.now }
    ensures { IfOk result (λ have. IsTrue have ↔ Each (HasKey (A.meaning app.now) feeds.now key.now) marks.now) }
{
    for mark in marks {
        if !has_key(app, feeds, key, *mark)? {
            return Ok(false);
        }
    }
    Ok(true)
}

fn lists_have_keys<A: App>(app: &A, feeds: &[Fed], flows: &[Flow]) -> Result<bool, NoMemory>
    requires { MarksRise feeds.now }
    ensures { IfOk result (λ have. IsTrue have ↔ Each (λ flow. Each (HasKey (A.meaning app.now) feeds.now flow.key) flow.marks) flows.now) }
{
    for flow in flows {
        if !marks_have_key(app, feeds, &flow.key, flow.marks.as_slice())? {
            return Ok(false);
        }
    }
    Ok(true)
}

fn push_all(marks: &mut Marks, more: &[u64]) -> Result<(), NoMemory>
    ensures { OnOk result (marks.new ≡ marks.old ++ more.now) }
{
    for mark in more {
        marks.push(*mark)?;
    }
    Ok(())
}

fn all_marks(alloc: Global, flows: &[Flow]) -> Result<Marks, NoMemory>
    ensures { IfOk result (λ marks. marks ≡ all_marks flows.now) }
{
    let mut marks = Marks::new(alloc);
    for flow in flows {
        push_all(&mut marks, flow.marks.as_slice())?;
    }
    Ok(marks)
}

// Whether the first rule is met.
pub(crate) fn lists_are_fed<A: App>(
    alloc: Global,
    app: &A,
    feeds: &[Fed],
    flows: &[Flow],
) -> Result<bool, NoMemory>
    requires { MarksRise feeds.now }
    ensures { IfOk result (λ met. IsTrue met ↔ ListsAreFed (A.meaning app.now) feeds.now flows.now) }
{
    if !lists_have_keys(app, feeds, flows)? {
        return Ok(false);
    }
    let marks = all_marks(alloc, flows)?;
    are_apart(alloc, marks.as_slice())
}
