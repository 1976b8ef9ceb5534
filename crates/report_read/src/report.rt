//! A report as the rules of legality look at it, and why a text is none.

use rp_base::{Flows, Marks, NoMemory, Releases};
use std::alloc::AllocError;

/// What a report says.
#[derive(Debug, Drop)]
pub struct Report {
    /// The outputs that left a switch, in the order of the lines.
    pub releases: Releases,
    /// The flows, in the order of the lines.
    pub flows: Flows,
    /// The numbers of the refused events, one for each line.
    pub refused: Marks,
}

/// Why a report is refused.
#[derive(Clone, Copy, Debug, PartialEq, Eq)]
pub enum ReportWhy {
    /// The text has more than 67,108,864 bytes.
    TooLong,
    /// The line has no form of its place.
    Form,
    /// The number of the event falls or exceeds the schedule's.
    Event,
    /// The line stands behind the line `end`, or there is no such line.
    End,
}

/// Why there is no report.
#[derive(Clone, Copy, Debug, PartialEq, Eq)]
pub enum ReportEnd {
    /// The first line that fails, from 1, and its cause. The whole text has line 0.
    Refused { line: u64, why: ReportWhy },
    /// Memory ran out.
    NoMemory,
}

/// Why a line isn't read.
#[derive(Clone, Copy, Debug, PartialEq, Eq)]
pub enum LineEnd {
    /// For this cause.
    Refused(ReportWhy),
    /// Memory ran out.
    NoMemory,
}

/// The line has no form of its place.
pub(crate) const FORM: LineEnd = LineEnd::Refused(ReportWhy::Form);

impl From<NoMemory> for LineEnd {
    ghost use Rattle.std.specs.Prelude.{◌≡◌};
    ghost use Rattle.report_read.specs.declared.report.LineEnd.TheVariants.{NoMemory as NoRoom};

    ghost from_gives = { λ _ e. e ≡ NoRoom };

    fn from(_e: NoMemory) -> LineEnd {
        LineEnd::NoMemory
    }
}

impl From<AllocError> for LineEnd {
    ghost use Rattle.std.specs.Prelude.{◌≡◌};
    ghost use Rattle.report_read.specs.declared.report.LineEnd.TheVariants.{NoMemory as NoRoom};

    ghost from_gives = { λ _ e. e ≡ NoRoom };

    fn from(_e: AllocError) -> LineEnd {
        LineEnd::NoMemory
    }
}
