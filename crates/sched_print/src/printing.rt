//! The lines of a schedule, one behind the other.
ghost use Rattle.std.specs.Prelude.{ℕ, ◌≡◌, ◌≤◌, length, Ok, IfOk, codes, decimal};
ghost use Rattle.run_report.specs.Names.{node_name};
ghost use Rattle.run_report.specs.Words.{◌␣◌, hex_text};
ghost use Rattle.sched_lang.specs.declared.schedule.Schedule.{Schedule as ScheduleValue};
ghost use Rattle.sched_gen.specs.Generated.{generated};
ghost use Rattle.sched_lang.specs.Reading.{schedule_of};
ghost use Rattle.sched_print.specs.Again.{IsPrintable};
ghost use Rattle.sched_print.specs.Text.{line, mode_words, header_text, event_words, event_text, schedule_text};

use rp_base::{Bytes, Event, NoMemory, Node};
use run_report::Text;
use sched_lang::Schedule;
use std::alloc::Global;

// A line of a name and a number.
fn named(alloc: Global, name: &[u8], n: u64) -> Result<Bytes, NoMemory>
    ensures { IfOk result (λ text. text ≡ line (name.now ␣ decimal n)) }
{
    Text::of(alloc, name)?.number(n)?.line()
}

// The line of the lease's terms.
fn lease(alloc: Global, t_switch: u64, t_store: u64) -> Result<Bytes, NoMemory>
    ensures { IfOk result (λ text. text ≡ line (codes "lease" ␣ decimal t_switch ␣ decimal t_store)) }
{
    Text::of(alloc, b"lease")?
        .number(t_switch)?
        .number(t_store)?
        .line()
}

// The line of the mode.
fn mode(alloc: Global, snapshot: Option<u64>) -> Result<Bytes, NoMemory>
    ensures { IfOk result (λ text. text ≡ line (mode_words snapshot)) }
{
    match snapshot {
        None => Text::of(alloc, b"mode strict")?.line(),
        Some(bound) => named(alloc, b"mode snapshot", bound),
    }
}

// The lines of the header.
fn header(alloc: Global, s: &Schedule) -> Result<Bytes, NoMemory>
    ensures { IfOk result (λ text. text ≡ header_text s.now) }
{
    let mut text = Text::of(alloc, b"rp-schedule 1")?.line()?;
    text.append(named(alloc, b"switches", u64::from(s.switches))?.as_slice())?;
    text.append(named(alloc, b"chain", u64::from(s.chain))?.as_slice())?;
    text.append(lease(alloc, s.t_switch, s.t_store)?.as_slice())?;
    text.append(named(alloc, b"ratio", s.ratio)?.as_slice())?;
    text.append(mode(alloc, s.snapshot)?.as_slice())?;
    Ok(text)
}

// A packet that is fed, with the words before it.
fn fed(text: Text, port: u16, bytes: &Bytes) -> Result<Text, NoMemory>
    ensures { IfOk result (λ made. made ≡ text ␣ decimal port ␣ hex_text bytes.now) }
{
    text.number(u64::from(port))?.hex_or_dash(bytes.as_slice())
}

// A name and a node.
fn at_node(alloc: Global, name: &[u8], node: Node) -> Result<Text, NoMemory>
    ensures { IfOk result (λ text. text ≡ name.now ␣ node_name node) }
{
    Text::of(alloc, name)?.node(node)
}

// The words of an event.
fn words(alloc: Global, event: &Event) -> Result<Text, NoMemory>
    ensures { IfOk result (λ text. text ≡ event_words event.now) }
{
    match event {
        Event::Feed { port, bytes } => fed(Text::of(alloc, b"feed")?, *port, bytes),
        Event::FeedAt { at, port, bytes } => fed(
            at_node(alloc, b"feedat", Node::Switch(*at))?,
            *port,
            bytes,
        ),
        Event::Deliver(i) => Text::of(alloc, b"deliver")?.number(*i),
        Event::Next => Text::of(alloc, b"next"),
        Event::Drop(i) => Text::of(alloc, b"drop")?.number(*i),
        Event::Time(by) => Text::of(alloc, b"time")?.numbers(by.as_slice()),
        Event::Alarm(node) => at_node(alloc, b"alarm", *node),
        Event::Fail(node) => at_node(alloc, b"fail", *node),
        Event::Boot(n) => at_node(alloc, b"boot", Node::Switch(*n)),
        Event::Detect(node) => at_node(alloc, b"detect", *node),
        Event::Announce => Text::of(alloc, b"announce"),
        Event::Pump => Text::of(alloc, b"pump"),
    }
}

/// The text of a schedule: its lines without comments, in lower case, each with its line feed.
///
/// # Errors
/// `NoMemory`.
pub fn print(alloc: Global, s: &Schedule) -> Result<Bytes, NoMemory>
    ensures { IfOk result (λ text. text ≡ schedule_text s.now) }
{
    let mut text = header(alloc, s)?;
    for event in s.events.as_slice() {
        text.append(words(alloc, event)?.line()?.as_slice())?;
    }
    Ok(text)
}

/// What is printed of a schedule that is ready, whose packets are bytes at ports, is read again as that schedule.
pub fn printed_schedules_are_read()
    ensures { (s : ScheduleValue) → IsPrintable s → length (schedule_text s) ≤ 4194304 → schedule_of (schedule_text s) ≡ Ok s }
{}

/// What is printed of a generated schedule is read again as that schedule.
pub fn generated_schedules_are_read()
    ensures { (n : ℕ) → length (schedule_text (generated n)) ≤ 4194304 → schedule_of (schedule_text (generated n)) ≡ Ok (generated n) }
{}
