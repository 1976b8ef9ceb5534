//! The program: runs a schedule and writes its report.
#![tactic(auto)]

ghost use Rattle.std.specs.Prelude.{◌≡◌, None, IfSome, drop};
ghost use Rattle.rp_base.specs.Outside.{Rose};
ghost use Rattle.run_core.specs.Commands.{form_of};
ghost use Rattle.run_core.specs.Outcomes.{outcome};
ghost use Rattle.run_core.specs.Answers.{Answers, IsAnswerTo};
ghost use Rattle.run_core.specs.Runs.{asked, WroteBounded, WroteLegal};

mod status;

use host_io::{
    CommandLine, FileInputs, ProcessCommandLine, SystemClock, UdpLink, WriterSink, words_of,
};
use rp_base::{Clock, Inputs, Link, Sink};
use run_core::{Status, rp_main};
use status::{exit_code, tell};
use std::alloc::Global;
use std::io;
use std::process::ExitCode;

// Runs what a command line asks for: the words behind the program's name.
fn run<A: CommandLine, I: Inputs, K: Sink, L: Link, C: Clock>(
    alloc: Global,
    line: &A,
    inputs: &mut I,
    out: &mut K,
    link: &mut L,
    clock: &mut C,
) -> Status
    ensures usage { IfSome (A.words line.now) (λ words.
        ¬ (result ≡ Status.NoMemory) → IsAnswerTo (form_of (drop 1 words)) result) }

    // where the command line and the inputs tell what they hold
    ensures told { IfSome (A.words line.now) (λ words. IfSome (I.contents inputs.old) (λ contents.
        Answers result (outcome (drop 1 words) contents) (K.written out.old) (K.written out.new))) }
    ensures legal { IfSome (A.words line.now) (λ words. IfSome (I.contents inputs.old) (λ contents.
        IfSome (asked (drop 1 words) contents) (λ run. run.schedule.snapshot ≡ None → WroteLegal result run (K.written out.old) (K.written out.new)))) }
    ensures bounded { IfSome (A.words line.now) (λ words. IfSome (I.contents inputs.old) (λ contents.
        IfSome (asked (drop 1 words) contents) (λ run. IfSome run.schedule.snapshot (λ _. WroteBounded result run (K.written out.old) (K.written out.new))))) }

    ensures input { result ≡ Status.InputFault → Rose (I.faults inputs.old) (I.faults inputs.new) }
    ensures output { result ≡ Status.OutputFault → Rose (K.faults out.old) (K.faults out.new) }
    ensures link { link.new ≡ link.old }
    ensures clock { clock.new ≡ clock.old }
{
    match words_of(alloc, line) {
        Ok(words) => rp_main(alloc, &words, inputs, out, link, clock),
        Err(_) => Status::NoMemory,
    }
}

fn main(rt: HostRuntime) -> ExitCode {
    let alloc: Global = rt.alloc();
    let line = ProcessCommandLine::new(&rt);
    let mut inputs = FileInputs::new(&rt, alloc);
    let mut out = WriterSink::new(io::writer(&rt));
    let mut link = UdpLink::new(&rt, alloc);
    let mut clock = SystemClock::started(&rt);
    let status = run(alloc, &line, &mut inputs, &mut out, &mut link, &mut clock);
    // Standard error has nowhere to report its own failure to: the status stands.
    let _ = tell(status, &mut rt.stderr());
    exit_code(status)
}

#[cfg(test)]
mod tests;
#[cfg(test)]
mod world_tests;
