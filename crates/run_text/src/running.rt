//! A run, whose lines are written as they come.
ghost use Rattle.std.specs.Prelude.{◌≡◌, ◌≤◌, All, length, OnOk, OnErr};
ghost use Rattle.rp_base.specs.Outside.{Grows, GrowsByFront, HasCause};
ghost use Rattle.rp_world.specs.AppWorld.{CellsFit, IsSetup, IsEventOf};
ghost use Rattle.run_report.specs.Report.{NamesKind};
ghost use Rattle.run_text.specs.Texts.{plain_text, report_text, running_text, running_texts};

use plain_run::{PlainApp, PlainSwitch};
use rp_app::App;
use rp_base::{Event, Failed, Line, NoMemory, Sink, write_all};
use rp_world::{Setup, World};
use std::alloc::Global;

/// Why a report ends early.
#[derive(Clone, Copy, Debug, PartialEq, Eq)]
pub enum Stop {
    /// The sink has counted a fault.
    Failed,
    /// Memory ran out.
    NoMemory,
}

impl From<NoMemory> for Stop {
    ghost use Rattle.std.specs.Prelude.{◌≡◌};
    ghost use Rattle.run_text.specs.declared.running.Stop.TheVariants.{NoMemory as NoRoom};

    ghost from_gives = { λ _ stop. stop ≡ NoRoom };

    fn from(_e: NoMemory) -> Stop {
        Stop::NoMemory
    }
}

impl From<Failed> for Stop {
    ghost use Rattle.std.specs.Prelude.{◌≡◌};
    ghost use Rattle.run_text.specs.declared.running.Stop.TheVariants.{Failed as Fails};

    ghost from_gives = { λ _ stop. stop ≡ Fails };

    fn from(_e: Failed) -> Stop {
        Stop::Failed
    }
}

// Writes a line whole, but for a frame that is sent where frames aren't shown.
fn write_line<K: Sink>(alloc: Global, frames: bool, l: &Line, out: &mut K) -> Result<(), Stop>
    requires { NamesKind l.now }
    ensures ok { OnOk result (Grows (K.written out.old) (K.written out.new) (running_text frames l.now)) }
    ensures err { OnErr result (GrowsByFront (K.written out.old) (K.written out.new) (running_text frames l.now)) }
    ensures cause { HasCause (K.faults out.old) (K.faults out.new) result Stop.Failed }
{
    if !frames && matches!(l, Line::Send { .. }) {
        return Ok(());
    }
    let text = run_report::line(alloc, l)?;
    write_all(out, text.as_slice())?;
    Ok(())
}

// Writes lines one after the other, each whole; frames that are sent only where they are shown.
fn write_lines<K: Sink>(
    alloc: Global,
    frames: bool,
    lines: &[Line],
    out: &mut K,
) -> Result<(), Stop>
    requires { All NamesKind lines.now }
    ensures ok { OnOk result (Grows (K.written out.old) (K.written out.new) (running_texts frames lines.now)) }
    ensures err { OnErr result (GrowsByFront (K.written out.old) (K.written out.new) (running_texts frames lines.now)) }
    ensures cause { HasCause (K.faults out.old) (K.faults out.new) result Stop.Failed }
{
    for l in lines {
        write_line(alloc, frames, l, out)?;
    }
    Ok(())
}

/// Runs an application over events, and writes the report: the lines of each event before the next one is taken. The frames
/// that are sent are shown where `frames` says so.
///
/// The setup is one that a world takes, the application has as many cells as its mode allows, and each of at most 20,000 events is
/// one that a run of this setup may have.
///
/// # Errors
/// `Failed` only where the sink's count of faults rose in this call, `NoMemory`; a front of the report was written.
pub fn write_report<A: App, K: Sink>(
    alloc: Global,
    app: A,
    setup: &Setup,
    frames: bool,
    events: &[Event],
    out: &mut K,
) -> Result<(), Stop>
    requires setup { IsSetup setup.now }
    requires cells { CellsFit setup.now.terms.mode (A.meaning app).cell_count }
    requires events { All (IsEventOf setup.now) events.now }
    requires count { length events.now ≤ 20000 }
    ensures ok { OnOk result (Grows (K.written out.old) (K.written out.new) (report_text frames (A.meaning app) setup.now events.now)) }
    ensures err { OnErr result (GrowsByFront (K.written out.old) (K.written out.new) (report_text frames (A.meaning app) setup.now events.now)) }
    ensures cause { HasCause (K.faults out.old) (K.faults out.new) result Stop.Failed }
{
    let mut world = World::open(alloc, app, setup)?;
    for event in events {
        let lines = world.on(event)?;
        write_lines(alloc, frames, lines.as_slice(), out)?;
    }
    let lines = world.closing()?;
    write_lines(alloc, true, lines.as_slice(), out)
}

/// Runs on one switch that never fails what these events feed, and writes the report: the lines of each event before the next one is
/// taken. There are at most 20,000 events.
///
/// # Errors
/// `Failed` only where the sink's count of faults rose in this call, `NoMemory`; a front of the report was written.
pub fn write_plain<A: PlainApp, K: Sink>(
    alloc: Global,
    app: A,
    events: &[Event],
    out: &mut K,
) -> Result<(), Stop>
    requires { length events.now ≤ 20000 }
    ensures ok { OnOk result (Grows (K.written out.old) (K.written out.new) (plain_text (A.meaning app) events.now)) }
    ensures err { OnErr result (GrowsByFront (K.written out.old) (K.written out.new) (plain_text (A.meaning app) events.now)) }
    ensures cause { HasCause (K.faults out.old) (K.faults out.new) result Stop.Failed }
{
    let mut switch = PlainSwitch::new(alloc, app);
    for event in events {
        let lines = switch.on(event)?;
        write_lines(alloc, true, lines.as_slice(), out)?;
    }
    let lines = switch.closing()?;
    write_lines(alloc, true, lines.as_slice(), out)
}
