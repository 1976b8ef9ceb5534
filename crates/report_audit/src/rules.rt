//! Whether a report is legal, or which is the least rule that it fails.
ghost use Rattle.std.specs.Prelude.{IfOk};
ghost use Rattle.proto_safety.specs.LegalLines.{IsVerdict};
ghost use Rattle.report_audit.specs.Rising.{EventsRise, MarksAreEvents, KeysDiffer};
ghost use Rattle.report_audit.specs.Verdict.{failing};

use crate::keyless::keyless_are_fed;
use crate::listed::{keyed_are_noted, released_in_time};
use crate::lists::lists_are_fed;
use crate::notes::note_lists;
use crate::verdict::Audit;
use indexmap::IndexMap;
use rp_app::App;
use rp_base::{Fed, Flow, NoMemory, Released};
use std::alloc::Global;

/// Whether these lists are legal, over the packets that were fed. The events of `feeds` rise, each packet's mark is its event, and the
/// keys of `flows` differ.
///
/// # Errors
/// `NoMemory`.
pub fn audit<A: App>(
    alloc: Global,
    app: &A,
    feeds: &[Fed],
    releases: &[Released],
    flows: &[Flow],
) -> Result<Audit, NoMemory>
    requires rise { EventsRise feeds.now }
    requires marks { MarksAreEvents feeds.now }
    requires keys { KeysDiffer flows.now }
    ensures { IfOk result (λ found. IsVerdict (A.meaning app.now) feeds.now releases.now flows.now (failing found)) }
{
    if !lists_are_fed(alloc, app, feeds, flows)? {
        return Ok(Audit::Fails(1));
    }
    let mut notes = IndexMap::new(alloc);
    let folded = note_lists(alloc, app, feeds, flows, &mut notes)?;
    if !keyed_are_noted(alloc, app, feeds, releases, &notes)? {
        return Ok(Audit::Fails(2));
    }
    if !released_in_time(releases, &notes) {
        return Ok(Audit::Fails(3));
    }
    if !folded {
        return Ok(Audit::Fails(4));
    }
    if !keyless_are_fed(alloc, app, feeds, releases)? {
        return Ok(Audit::Fails(5));
    }
    Ok(Audit::Legal)
}
