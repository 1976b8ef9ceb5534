//! The fifth rule: a released mark without a key was fed, its output is that of one switch, and it is released once.
ghost use Rattle.std.specs.Prelude.{◌≡◌, ◌≢◌, ◌↔◌, Some, None, length, IfOk, IsTrue};
ghost use Rattle.proto_model.specs.Feeds.{Each, key_at};
ghost use Rattle.proto_safety.specs.LegalLines.{KeylessAreFed};
ghost use Rattle.report_audit.specs.Rising.{MarksRise, PlainIfKeyless};

use crate::feeds::key_in;
use crate::listed::released_once;
use crate::outputs::is_output_in;
use rp_app::App;
use rp_base::{Cells, Fed, NoMemory, Released};
use std::alloc::Global;

fn keyless_are_plain<A: App>(
    alloc: Global,
    app: &A,
    feeds: &[Fed],
    releases: &[Released],
) -> Result<bool, NoMemory>
    requires { MarksRise feeds.now }
    ensures { IfOk result (λ met. IsTrue met ↔ Each (PlainIfKeyless (A.meaning app.now) feeds.now) releases.now) }
{
    let zeros = Cells::zeros(alloc, app.cells())?;
    for r in releases {
        if key_in(app, feeds, r.output.mark)?.is_none()
            && !is_output_in(alloc, app, feeds, &zeros, &r.output)?
        {
            return Ok(false);
        }
    }
    Ok(true)
}

// Whether the fifth rule is met.
pub(crate) fn keyless_are_fed<A: App>(
    alloc: Global,
    app: &A,
    feeds: &[Fed],
    releases: &[Released],
) -> Result<bool, NoMemory>
    requires { MarksRise feeds.now }
    ensures { IfOk result (λ met. IsTrue met ↔ KeylessAreFed (A.meaning app.now) feeds.now releases.now) }
{
    if !keyless_are_plain(alloc, app, feeds, releases)? {
        return Ok(false);
    }
    released_once(alloc, app, feeds, releases, false)
}
