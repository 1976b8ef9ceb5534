//! How the program ended, as a process tells it: its exit status, and its line on standard error.
ghost use Rattle.std.specs.Prelude.{◌≡◌, Some, OnOk};
ghost use Rattle.std.specs.Io.KnownBytes.{Appends};
ghost use Rattle.std.specs.Process.{exit_status};
ghost use Rattle.run_core.specs.Answers.{number_of};
ghost use Rattle.rp_cli.specs.Telling.{cause_text, status_line, status_text, why_text};

use rp_base::Why;
use run_core::Status;
use sched_lang::SchedWhy;
use std::io::Write;
use std::process::ExitCode;
use std::{fmt, io};

/// What the process ends with.
pub fn exit_code(status: Status) -> ExitCode
    ensures { exit_status result ≡ number_of status }
{
    ExitCode::from(status.number())
}

// The name of the cause for which a program is refused.
fn cause_name(why: Why) -> &'static str
    ensures { result.now ≡ cause_text why }
{
    match why {
        Why::BadByte => "BadByte",
        Why::BadNumber => "BadNumber",
        Why::OpenComment => "OpenComment",
        Why::Directive => "Directive",
        Why::TooLong => "TooLong",
        Why::Deep => "Deep",
        Why::Mixed => "Mixed",
        Why::Unexpected => "Unexpected",
        Why::Unknown => "Unknown",
        Why::Twice => "Twice",
        Why::Kind => "Kind",
        Why::Width => "Width",
        Why::Fit => "Fit",
        Why::Cycle => "Cycle",
        Why::Key => "Key",
        Why::Cells => "Cells",
        Why::Entry => "Entry",
    }
}

// The name of the cause for which a schedule is refused.
fn why_name(why: SchedWhy) -> &'static str
    ensures { result.now ≡ why_text why }
{
    match why {
        SchedWhy::TooLong => "TooLong",
        SchedWhy::Many => "Many",
        SchedWhy::Form => "Form",
        SchedWhy::Number => "Number",
        SchedWhy::Node => "Node",
        SchedWhy::Terms => "Terms",
        SchedWhy::Cells => "Cells",
        SchedWhy::Mode => "Mode",
        SchedWhy::NotYet => "NotYet",
    }
}

// How the program ended, in words.
#[derive(Drop)]
struct Told(Status);

impl fmt::Display for Told {
    ghost output = { λ told. Some (status_text told.0) };

    fn fmt<W: fmt::Write>(&self, f: &mut fmt::Formatter<W>) -> fmt::Result {
        match self.0 {
            Status::Done => f.write_str("done"),
            Status::Usage => f.write_str("usage"),
            Status::ProgramRefused { at, why } => {
                let name = cause_name(why);
                write!(f, "program {at} {name}")
            }
            Status::ScheduleRefused { line, why } => {
                let name = why_name(why);
                write!(f, "schedule {line} {name}")
            }
            Status::InputFault => f.write_str("input fault"),
            Status::OutputFault => f.write_str("output fault"),
            Status::NoMemory => f.write_str("no memory"),
        }
    }
}

/// Tells in a line how the program ended, and nothing where all is written.
///
/// # Errors
/// Those of the writer; the line may be cut short.
pub fn tell<W: Write>(status: Status, to: &mut W) -> io::Result<()>
    ensures { OnOk result (Appends (W.contents to.old) (W.contents to.new) (status_line status)) }
{
    match status {
        Status::Done => Ok(()),
        _ => {
            let told = Told(status);
            writeln!(to, "rp: {told}")
        }
    }
}
