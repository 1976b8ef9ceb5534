//! What a command loads: programs and schedules.
ghost use Rattle.std.specs.Prelude.{◌≡◌, ◌≤◌, IfSome, IfOk, IfErr, IsErrOf};
ghost use Rattle.rp_base.specs.Outside.{Rose};
ghost use Rattle.app_meaning.specs.Programs.{application};
ghost use Rattle.p4_checked.specs.Reading.{IsChecked, checked_of};
ghost use Rattle.sched_lang.specs.Ready.{IsReady};
ghost use Rattle.run_core.specs.Answers.{IsNoProgram, IsNoSchedule, Loads};
ghost use Rattle.run_core.specs.Outcomes.{fitting, judged, mode_fault, program_in, schedule_in};

use crate::status::Status;
use p4_check::{CheckEnd, Checked};
use p4_checked::checked_text;
use rp_base::{Bytes, InputEnd, Inputs, Refused};
use sched_lang::{SchedEnd, SchedWhy, Schedule, read_with_mode};
use std::alloc::Global;

// The most bytes that a program has.
const PROGRAM_LIMIT: u64 = 262144;

// The most bytes that a schedule has.
const SCHEDULE_LIMIT: u64 = 4194304;

/// What a schedule is for.
#[derive(Clone, Copy, Debug, PartialEq, Eq)]
pub(crate) enum Machine {
    /// One switch that never fails.
    OneSwitch,
    /// All switches and replicas.
    World,
}

// Reads and checks a program.
fn checked(alloc: Global, text: &Bytes) -> Result<Checked, Status>
    ensures exact { Loads (λ c. application c.tree) result (judged (checked_of text.now)) }
    ensures source { IfOk result IsChecked }
    ensures ends { IfErr result IsNoProgram }
    ensures input { IsErrOf result Status.InputFault → ⊥ }
{
    match checked_text(alloc, text.as_slice()) {
        Ok(program) => Ok(program),
        Err(CheckEnd::Refused(Refused { at, why })) => Err(Status::ProgramRefused { at, why }),
        Err(CheckEnd::NoMemory) => Err(Status::NoMemory),
    }
}

/// Loads a program, reads it and checks it.
pub(crate) fn program<I: Inputs>(
    alloc: Global,
    name: &[u8],
    inputs: &mut I,
) -> Result<Checked, Status>
    ensures told { IfSome (I.contents inputs.old) (λ contents. Loads (λ c. application c.tree) result (program_in (contents name.now))) }
    ensures source { IfOk result IsChecked }
    ensures ends { IfErr result IsNoProgram }
    ensures contents { I.contents inputs.new ≡ I.contents inputs.old }
    ensures count { I.faults inputs.old ≤ I.faults inputs.new }
    ensures input { IsErrOf result Status.InputFault → Rose (I.faults inputs.old) (I.faults inputs.new) }
{
    let mut text = Bytes::new(alloc);
    match inputs.load(name, PROGRAM_LIMIT, &mut text) {
        Ok(()) => checked(alloc, &text),
        Err(InputEnd::Failed) => Err(Status::InputFault),
        Err(InputEnd::NoMemory) => Err(Status::NoMemory),
    }
}

// Why a machine doesn't take a schedule of this mode, where a flow has so many cells.
fn fault(machine: Machine, cells: u16, snapshot: Option<u64>) -> Option<SchedWhy>
    ensures { result ≡ mode_fault machine cells snapshot }
{
    match (snapshot, machine) {
        (None, _) if cells > 32 => Some(SchedWhy::Cells),
        (None, _) => None,
        (Some(_), Machine::OneSwitch) => Some(SchedWhy::Mode),
        (Some(_), Machine::World) => None,
    }
}

// Reads a schedule.
fn fitted(alloc: Global, machine: Machine, cells: u16, text: &Bytes) -> Result<Schedule, Status>
    ensures exact { Loads (λ s. s) result (fitting machine cells text.now) }
    ensures ready { IfOk result IsReady }
    ensures fits { IfOk result (λ s. mode_fault machine cells s.snapshot ≡ None) }
    ensures ends { IfErr result IsNoSchedule }
    ensures input { IsErrOf result Status.InputFault → ⊥ }
{
    match read_with_mode(alloc, text.as_slice()) {
        Ok((schedule, line)) => match fault(machine, cells, schedule.snapshot) {
            None => Ok(schedule),
            Some(why) => Err(Status::ScheduleRefused { line, why }),
        },
        Err(SchedEnd::Refused { line, why }) => Err(Status::ScheduleRefused { line, why }),
        Err(SchedEnd::NoMemory) => Err(Status::NoMemory),
    }
}

/// Loads a schedule and reads it, for a machine whose flows have so many cells.
pub(crate) fn schedule<I: Inputs>(
    alloc: Global,
    machine: Machine,
    cells: u16,
    name: &[u8],
    inputs: &mut I,
) -> Result<Schedule, Status>
    ensures told { IfSome (I.contents inputs.old) (λ contents. Loads (λ s. s) result (schedule_in machine cells (contents name.now))) }
    ensures ready { IfOk result IsReady }
    ensures fits { IfOk result (λ s. mode_fault machine cells s.snapshot ≡ None) }
    ensures ends { IfErr result IsNoSchedule }
    ensures contents { I.contents inputs.new ≡ I.contents inputs.old }
    ensures count { I.faults inputs.old ≤ I.faults inputs.new }
    ensures input { IsErrOf result Status.InputFault → Rose (I.faults inputs.old) (I.faults inputs.new) }
{
    let mut text = Bytes::new(alloc);
    match inputs.load(name, SCHEDULE_LIMIT, &mut text) {
        Ok(()) => fitted(alloc, machine, cells, &text),
        Err(InputEnd::Failed) => Err(Status::InputFault),
        Err(InputEnd::NoMemory) => Err(Status::NoMemory),
    }
}
