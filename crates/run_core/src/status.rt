//! How the program ends.

use rp_base::Why;
use sched_lang::SchedWhy;

/// How the program ends.
#[derive(Clone, Copy, Debug, PartialEq, Eq)]
pub enum Status {
    /// All is written.
    Done,
    /// The words have no form.
    Usage,
    /// The least place at which the program fails, the offset of a byte from 0, and the first cause there.
    ProgramRefused { at: u64, why: Why },
    /// The first line of the schedule that fails, from 1, and why. The whole text has line 0.
    ScheduleRefused { line: u64, why: SchedWhy },
    /// The inputs have counted a fault.
    InputFault,
    /// The sink has counted a fault.
    OutputFault,
    /// Memory ran out.
    NoMemory,
}

impl Status {
    ghost use Rattle.std.specs.Prelude.{◌≡◌};
    ghost use Rattle.run_core.specs.Answers.{number_of};

    /// The exit status: 0 to 6.
    pub fn number(&self) -> u8
        ensures { result ≡ number_of self.now }
    {
        match self {
            Status::Done => 0,
            Status::Usage => 1,
            Status::ProgramRefused { .. } => 2,
            Status::ScheduleRefused { .. } => 3,
            Status::InputFault => 4,
            Status::OutputFault => 5,
            Status::NoMemory => 6,
        }
    }
}
