//! The judgement: the report's refusal where it isn't read, else the least rule of legality that fails.
ghost use Rattle.std.specs.Prelude.{◌≤◌, length, IfOk};
ghost use Rattle.proto_safety.specs.LegalLines.{IsVerdict};
ghost use Rattle.report_audit.specs.Rising.{KeysDiffer};
ghost use Rattle.report_audit.specs.Verdict.{failing};
ghost use Rattle.report_judge.specs.Judging.{Judges, feeds_but};

use crate::feeds::feeds_but;
use report_audit::{Audit, audit};
use report_read::{Report, ReportEnd, ReportWhy, read};
use rp_app::App;
use rp_base::{Event, NoMemory};
use std::alloc::Global;

/// Why a report isn't legal.
#[derive(Clone, Copy, Debug, PartialEq, Eq)]
pub enum JudgeEnd {
    /// It isn't read: the first line that fails, from 1, and its cause. The whole text has line 0.
    Refused { line: u64, why: ReportWhy },
    /// The least rule of legality that fails: 1 to 5.
    NotLegal { rule: u8 },
    /// Memory ran out.
    NoMemory,
}

// Whether a report that was read is legal, or the least rule that fails.
fn audited<A: App>(
    alloc: Global,
    app: &A,
    events: &[Event],
    report: &Report,
) -> Result<Audit, NoMemory>
    requires many { length events.now ≤ 20000 }
    requires keys { KeysDiffer report.now.flows }
    ensures { IfOk result (λ found. IsVerdict (A.meaning app.now) (feeds_but events.now report.now.refused) report.now.releases report.now.flows (failing found)) }
{
    let feeds = feeds_but(alloc, events, report.refused.as_slice())?;
    audit(
        alloc,
        app,
        feeds.as_slice(),
        report.releases.as_slice(),
        report.flows.as_slice(),
    )
}

/// Judges a report of a run of at most 20,000 events: it is read, and audited over the packets of the `feed` and `feedat` events that
/// it doesn't refuse.
///
/// # Errors
/// `Refused` where the text is no report of so many events, else `NotLegal` with the least rule that fails; or `NoMemory`.
pub fn judge<A: App>(
    alloc: Global,
    app: &A,
    events: &[Event],
    report: &[u8],
) -> Result<(), JudgeEnd>
    requires { length events.now ≤ 20000 }
    ensures { Judges (A.meaning app.now) events.now report.now result }
{
    let report = match read(alloc, report, events.len() as u64) {
        Ok(report) => report,
        Err(ReportEnd::Refused { line, why }) => return Err(JudgeEnd::Refused { line, why }),
        Err(ReportEnd::NoMemory) => return Err(JudgeEnd::NoMemory),
    };
    match audited(alloc, app, events, &report) {
        Ok(Audit::Legal) => Ok(()),
        Ok(Audit::Fails(rule)) => Err(JudgeEnd::NotLegal { rule }),
        Err(NoMemory) => Err(JudgeEnd::NoMemory),
    }
}
