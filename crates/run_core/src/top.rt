//! The top call: what the program does over any inputs, sink, link and clock.
ghost use Rattle.std.specs.Prelude.{◌≡◌, ◌≤◌, [], false, None, Some, IfSome, IsOk};
ghost use Rattle.rp_base.specs.Outside.{Grows, Rose};
ghost use Rattle.app_meaning.specs.Programs.{application};
ghost use Rattle.rp_world.specs.AppWorld.{IsSetup};
ghost use Rattle.sched_lang.specs.Ready.{IsReady};
ghost use Rattle.run_core.specs.Commands.{Plain, Program, Run, form_of};
ghost use Rattle.run_core.specs.Outcomes.{setup_of as setup_for, outcome, outcome_at, plain_of, run_of};
ghost use Rattle.run_core.specs.Answers.{Answers, IsAnswerTo, IsBeforeRun, IsDoneOrNoMemory};
ghost use Rattle.run_core.specs.Runs.{asked, WroteBounded, WroteLegal};

use crate::command::{Command, Subject, command_of};
use crate::loading::{Machine, program, schedule};
use crate::status::Status;
use held_app::HeldApp;
use p4_check::Checked;
use plain_run::PlainApp;
use proto_data::{Mode, Terms};
use rp_app::{App, CountApp};
use rp_base::{Clock, Inputs, Link, Sink, Words};
use rp_world::Setup;
use run_text::{Stop, write_plain, write_report};
use sched_lang::Schedule;
use std::alloc::Global;
use tree_app::{TreeApp, TreeRun};

// The nodes and terms of a schedule's run, without a link.
fn setup_of(schedule: &Schedule) -> Setup
    requires { IsReady schedule.now }
    ensures value { result ≡ setup_for schedule.now }
    ensures setup { IsSetup result }
{
    Setup {
        switches: schedule.switches,
        replicas: schedule.chain,
        terms: Terms {
            t_switch: schedule.t_switch,
            t_store: schedule.t_store,
            ratio: schedule.ratio,
            mode: match schedule.snapshot {
                None => Mode::Strict,
                Some(bound) => Mode::Snapshot(bound),
            },
        },
        linked: false,
    }
}

// Writes the report of one switch that never fails, over the schedule of this name.
fn plain<A: PlainApp, I: Inputs, K: Sink>(
    alloc: Global,
    app: A,
    name: &[u8],
    inputs: &mut I,
    out: &mut K,
) -> Status
    ensures told { IfSome (I.contents inputs.old) (λ contents. Answers result (plain_of (A.meaning app) (contents name.now)) (K.written out.old) (K.written out.new)) }
    ensures form { ¬ (result ≡ Status.Usage) }
    ensures nothing { IsBeforeRun result → Grows (K.written out.old) (K.written out.new) [] }
    ensures input { result ≡ Status.InputFault → Rose (I.faults inputs.old) (I.faults inputs.new) }
    ensures output { result ≡ Status.OutputFault → Rose (K.faults out.old) (K.faults out.new) }
    ensures contents { I.contents inputs.new ≡ I.contents inputs.old }
    ensures inputs_count { I.faults inputs.old ≤ I.faults inputs.new }
    ensures out_count { K.faults out.old ≤ K.faults out.new }
{
    match schedule(alloc, Machine::OneSwitch, app.cells(), name, inputs) {
        Ok(schedule) => match write_plain(alloc, app, schedule.events.as_slice(), out) {
            Ok(()) => Status::Done,
            Err(Stop::Failed) => Status::OutputFault,
            Err(Stop::NoMemory) => Status::NoMemory,
        },
        Err(status) => status,
    }
}

// Writes the report of the run of the schedule of this name, with the frames that are sent or without them. A flow has at most 256 cells.
fn run<A: App, I: Inputs, K: Sink>(
    alloc: Global,
    app: A,
    name: &[u8],
    frames: bool,
    inputs: &mut I,
    out: &mut K,
) -> Status
    requires { (A.meaning app).cell_count ≤ 256 }
    ensures told { IfSome (I.contents inputs.old) (λ contents. Answers result (run_of (A.meaning app) frames (contents name.now)) (K.written out.old) (K.written out.new)) }
    ensures form { ¬ (result ≡ Status.Usage) }
    ensures nothing { IsBeforeRun result → Grows (K.written out.old) (K.written out.new) [] }
    ensures input { result ≡ Status.InputFault → Rose (I.faults inputs.old) (I.faults inputs.new) }
    ensures output { result ≡ Status.OutputFault → Rose (K.faults out.old) (K.faults out.new) }
    ensures contents { I.contents inputs.new ≡ I.contents inputs.old }
    ensures inputs_count { I.faults inputs.old ≤ I.faults inputs.new }
    ensures out_count { K.faults out.old ≤ K.faults out.new }
{
    match schedule(alloc, Machine::World, app.cells(), name, inputs) {
        Ok(schedule) => {
            let setup = setup_of(&schedule);
            match write_report(alloc, app, &setup, frames, schedule.events.as_slice(), out) {
                Ok(()) => Status::Done,
                Err(Stop::Failed) => Status::OutputFault,
                Err(Stop::NoMemory) => Status::NoMemory,
            }
        }
        Err(status) => status,
    }
}

// The same of a program on one switch.
fn plain_app<I: Inputs, K: Sink>(
    alloc: Global,
    app: &TreeApp,
    schedule: &[u8],
    inputs: &mut I,
    out: &mut K,
) -> Status
    ensures told { IfSome (I.contents inputs.old) (λ contents. Answers result (plain_of (application app.now.tree) (contents schedule.now)) (K.written out.old) (K.written out.new)) }
    ensures form { ¬ (result ≡ Status.Usage) }
    ensures nothing { IsBeforeRun result → Grows (K.written out.old) (K.written out.new) [] }
    ensures input { result ≡ Status.InputFault → Rose (I.faults inputs.old) (I.faults inputs.new) }
    ensures output { result ≡ Status.OutputFault → Rose (K.faults out.old) (K.faults out.new) }
    ensures contents { I.contents inputs.new ≡ I.contents inputs.old }
    ensures inputs_count { I.faults inputs.old ≤ I.faults inputs.new }
    ensures out_count { K.faults out.old ≤ K.faults out.new }
{
    match TreeRun::of(app) {
        Ok(run) => plain(alloc, run, schedule, inputs, out),
        Err(_) => Status::NoMemory,
    }
}

// The same of the program of this name.
fn plain_program<I: Inputs, K: Sink>(
    alloc: Global,
    name: &[u8],
    schedule: &[u8],
    inputs: &mut I,
    out: &mut K,
) -> Status
    ensures told { IfSome (I.contents inputs.old) (λ contents. Answers result (outcome_at (Some (Plain (Program name.now) schedule.now)) contents) (K.written out.old) (K.written out.new)) }
    ensures form { ¬ (result ≡ Status.Usage) }
    ensures nothing { IsBeforeRun result → Grows (K.written out.old) (K.written out.new) [] }
    ensures input { result ≡ Status.InputFault → Rose (I.faults inputs.old) (I.faults inputs.new) }
    ensures output { result ≡ Status.OutputFault → Rose (K.faults out.old) (K.faults out.new) }
    ensures contents { I.contents inputs.new ≡ I.contents inputs.old }
    ensures inputs_count { I.faults inputs.old ≤ I.faults inputs.new }
    ensures out_count { K.faults out.old ≤ K.faults out.new }
{
    match program(alloc, name, inputs) {
        Ok(checked) => {
            let app = TreeApp::new(alloc, checked);
            plain_app(alloc, &app, schedule, inputs, out)
        }
        Err(status) => status,
    }
}

// The same of a program in the whole world, behind leases.
fn run_checked<I: Inputs, K: Sink>(
    alloc: Global,
    program: &Checked,
    schedule: &[u8],
    frames: bool,
    inputs: &mut I,
    out: &mut K,
) -> Status
    requires { program.now.rewritten ≡ false }
    ensures told { IfSome (I.contents inputs.old) (λ contents. Answers result (run_of (application program.now.tree) frames (contents schedule.now)) (K.written out.old) (K.written out.new)) }
    ensures form { ¬ (result ≡ Status.Usage) }
    ensures nothing { IsBeforeRun result → Grows (K.written out.old) (K.written out.new) [] }
    ensures input { result ≡ Status.InputFault → Rose (I.faults inputs.old) (I.faults inputs.new) }
    ensures output { result ≡ Status.OutputFault → Rose (K.faults out.old) (K.faults out.new) }
    ensures contents { I.contents inputs.new ≡ I.contents inputs.old }
    ensures inputs_count { I.faults inputs.old ≤ I.faults inputs.new }
    ensures out_count { K.faults out.old ≤ K.faults out.new }
{
    match HeldApp::of_source(alloc, program) {
        Ok(app) => run(alloc, app, schedule, frames, inputs, out),
        Err(_) => Status::NoMemory,
    }
}

// The same of the program of this name.
fn run_program<I: Inputs, K: Sink>(
    alloc: Global,
    name: &[u8],
    schedule: &[u8],
    frames: bool,
    inputs: &mut I,
    out: &mut K,
) -> Status
    ensures told { IfSome (I.contents inputs.old) (λ contents. Answers result (outcome_at (Some (Run (Program name.now) schedule.now frames)) contents) (K.written out.old) (K.written out.new)) }
    ensures form { ¬ (result ≡ Status.Usage) }
    ensures nothing { IsBeforeRun result → Grows (K.written out.old) (K.written out.new) [] }
    ensures input { result ≡ Status.InputFault → Rose (I.faults inputs.old) (I.faults inputs.new) }
    ensures output { result ≡ Status.OutputFault → Rose (K.faults out.old) (K.faults out.new) }
    ensures contents { I.contents inputs.new ≡ I.contents inputs.old }
    ensures inputs_count { I.faults inputs.old ≤ I.faults inputs.new }
    ensures out_count { K.faults out.old ≤ K.faults out.new }
{
    match program(alloc, name, inputs) {
        Ok(checked) => run_checked(alloc, &checked, schedule, frames, inputs, out),
        Err(status) => status,
    }
}

// Does what these words ask for.
fn answer<I: Inputs, K: Sink>(alloc: Global, words: &Words, inputs: &mut I, out: &mut K) -> Status
    ensures usage { IsAnswerTo (form_of words.now) result }
    ensures told { IfSome (I.contents inputs.old) (λ contents. Answers result (outcome words.now contents) (K.written out.old) (K.written out.new)) }
    ensures nothing { IsBeforeRun result → Grows (K.written out.old) (K.written out.new) [] }
    ensures input { result ≡ Status.InputFault → Rose (I.faults inputs.old) (I.faults inputs.new) }
    ensures output { result ≡ Status.OutputFault → Rose (K.faults out.old) (K.faults out.new) }
    ensures contents { I.contents inputs.new ≡ I.contents inputs.old }
    ensures inputs_count { I.faults inputs.old ≤ I.faults inputs.new }
    ensures out_count { K.faults out.old ≤ K.faults out.new }
{
    match command_of(words) {
        None => Status::Usage,
        Some(Command::Plain(Subject::Count, name)) => plain(
            alloc,
            CountApp { alloc },
            name,
            inputs,
            out,
        ),
        Some(Command::Plain(Subject::Program(app), name)) => plain_program(
            alloc, app, name, inputs, out,
        ),
        Some(Command::Run(Subject::Count, name, frames)) => run(
            alloc,
            CountApp { alloc },
            name,
            frames,
            inputs,
            out,
        ),
        Some(Command::Run(Subject::Program(app), name, frames)) => run_program(
            alloc, app, name, frames, inputs, out,
        ),
    }
}

/// Runs the command of these words.
pub fn rp_main<I: Inputs, K: Sink, L: Link, C: Clock>(
    alloc: Global,
    words: &Words,
    inputs: &mut I,
    out: &mut K,
    link: &mut L,
    clock: &mut C,
) -> Status
    ensures usage { IsAnswerTo (form_of words.now) result }

    // where the inputs tell their contents
    ensures told { IfSome (I.contents inputs.old) (λ contents.
        Answers result (outcome words.now contents) (K.written out.old) (K.written out.new)) }
    // of a run in strict mode, what was written, whole or in part, is what one switch that never fails could have shown
    ensures legal { IfSome (I.contents inputs.old) (λ contents. IfSome (asked words.now contents) (λ run.
        run.schedule.snapshot ≡ None → WroteLegal result run (K.written out.old) (K.written out.new))) }
    // of a run in snapshot mode, it loses boundedly
    ensures bounded { IfSome (I.contents inputs.old) (λ contents. IfSome (asked words.now contents) (λ run.
        IfSome run.schedule.snapshot (λ _. WroteBounded result run (K.written out.old) (K.written out.new)))) }
    ensures complete { IfSome (I.contents inputs.old) (λ contents. IsOk (outcome words.now contents) →
        ¬ Rose (I.faults inputs.old) (I.faults inputs.new) → ¬ Rose (K.faults out.old) (K.faults out.new) → IsDoneOrNoMemory result) }

    ensures nothing { IsBeforeRun result → Grows (K.written out.old) (K.written out.new) [] }
    ensures input { result ≡ Status.InputFault → Rose (I.faults inputs.old) (I.faults inputs.new) }
    ensures output { result ≡ Status.OutputFault → Rose (K.faults out.old) (K.faults out.new) }
    ensures contents { I.contents inputs.new ≡ I.contents inputs.old }
    ensures inputs_count { I.faults inputs.old ≤ I.faults inputs.new }
    ensures out_count { K.faults out.old ≤ K.faults out.new }
    ensures link_count { L.faults link.old ≤ L.faults link.new }
    ensures link { link.new ≡ link.old }
    ensures clock { clock.new ≡ clock.old }
{
    let _ = link;
    let _ = clock;
    answer(alloc, words, inputs, out)
}
