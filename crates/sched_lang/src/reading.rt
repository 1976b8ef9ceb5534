//! A whole text.
ghost use Rattle.std.specs.Prelude.{◌≡◌, ℕ, List, ◌+◌, ◌≤◌, ◌<◌, ◌++◌, length, Ok, IfOk, IfSome};
ghost use Rattle.sched_lang.specs.Words.{lines};
ghost use Rattle.sched_lang.specs.Ready.{IsReady};
ghost use Rattle.sched_lang.specs.Reading.{Gives, at_line, next_line, header, event_in, events_from, mode_at, schedule_of};

use crate::event::event;
use crate::header::{Header, chain, first, lease, mode, ratio, switches};
use crate::schedule::{Events, SchedEnd, SchedWhy, Schedule};
use crate::words::{first_line, is_passed_over};
use rp_base::Event;
use std::alloc::Global;

/// What a line reads, or its number with the cause.
fn at_line<A: Drop>(line: u64, read: Result<A, SchedWhy>) -> Result<A, SchedEnd>
    ensures value { Gives (λ x. x) result (at_line line read) }
    ensures same { IfOk result (λ x. read ≡ Ok x) }
{
    match read {
        Ok(x) => Ok(x),
        Err(why) => Err(SchedEnd::Refused { line, why }),
    }
}

/// The next line that isn't passed over: its number, the line, and the text behind it. The text begins with line `number`.
///
/// # Errors
/// `Form` at the number after the last line, where there is none.
fn next_line(number: u64, text: &[u8]) -> Result<(u64, &[u8], &[u8]), SchedEnd>
    requires { number + length text.now ≤ 5000000 }
    ensures value { Gives (λ x. (x.0, x.1.now, lines x.2.now)) result (next_line number (lines text.now)) }
    ensures within { IfOk result (λ x. x.0 + 1 + length x.2.now ≤ number + length text.now) }
{
    let mut number = number;
    let mut rest = text;
    while !rest.is_empty() {
        let (line, after) = first_line(rest);
        if !is_passed_over(line) {
            return Ok((number, line, after));
        }
        number += 1;
        rest = after;
    }
    Err(SchedEnd::Refused {
        line: number,
        why: SchedWhy::Form,
    })
}

/// The header at the front of a text, the number of the line behind it, and the text from there on.
#[tactic(auto, unfolding(crate::specs::Reading::header))]
fn header(text: &[u8]) -> Result<(Header, u64, &[u8]), SchedEnd>
    requires { length text.now ≤ 4194304 }
    ensures value { Gives (λ x. (x.0, x.1, lines x.2.now)) result (header 1 (lines text.now)) }
    ensures within { IfOk result (λ x. x.1 + length x.2.now ≤ 1 + length text.now) }
    ensures some { IfOk result (λ x. 1 ≤ x.1) }
{
    let (n, line, rest) = next_line(1, text)?;
    at_line(n, first(line))?;
    let (n, line, rest) = next_line(n + 1, rest)?;
    let switches = at_line(n, switches(line))?;
    let (n, line, rest) = next_line(n + 1, rest)?;
    let chain = at_line(n, chain(line))?;
    let (n, line, rest) = next_line(n + 1, rest)?;
    let (t_switch, t_store) = at_line(n, lease(line))?;
    let (n, line, rest) = next_line(n + 1, rest)?;
    let ratio = at_line(n, ratio(t_switch, t_store, line))?;
    let (n, line, rest) = next_line(n + 1, rest)?;
    let snapshot = at_line(n, mode(line))?;
    let header = Header {
        switches,
        chain,
        t_switch,
        t_store,
        ratio,
        snapshot,
    };
    Ok((header, n + 1, rest))
}

// The event of a line, where it isn't passed over. So many events stand before it.
fn event_in(
    alloc: Global,
    header: &Header,
    before: u64,
    number: u64,
    line: &[u8],
) -> Result<Option<Event>, SchedEnd>
    ensures value { Gives (λ x. x) result (at_line number (event_in header.now.switches header.now.chain before line.now)) }
    ensures room { IfOk result (λ event. IfSome event (λ _. before < 20000)) }
{
    if is_passed_over(line) {
        return Ok(None);
    }
    if before >= 20_000 {
        return Err(SchedEnd::Refused {
            line: number,
            why: SchedWhy::Many,
        });
    }
    let read = event(alloc, header.switches, header.chain, line)?;
    Ok(Some(at_line(number, read)?))
}

// The events of a text, which begins with line `number`.
fn events(alloc: Global, header: &Header, number: u64, text: &[u8]) -> Result<Events, SchedEnd>
    requires { number + length text.now ≤ 5000000 }
    ensures value { Gives (λ x. x) result (events_from header.now.switches header.now.chain 0 number (lines text.now)) }
    ensures count { IfOk result (λ events. length events ≤ 20000) }
{
    let mut events = Events::new(alloc);
    let mut number = number;
    let mut rest = text;
    while !rest.is_empty() {
        let (line, after) = first_line(rest);
        if let Some(event) = event_in(alloc, header, events.len(), number, line)? {
            events.push(event)?;
        }
        number += 1;
        rest = after;
    }
    Ok(events)
}

// Reads a schedule, and gives beside it the number of the line of `mode`.
#[tactic(auto, unfolding(crate::specs::Reading::schedule_of, crate::specs::Reading::mode_at))]
fn schedule(alloc: Global, b: &[u8]) -> Result<(Schedule, u64), SchedEnd>
    ensures exact { Gives (λ x. x.0) result (schedule_of b.now) }
    ensures mode { IfOk result (λ x. x.1 ≡ mode_at b.now) }
{
    if b.len() > 4_194_304 {
        return Err(SchedEnd::Refused {
            line: 0,
            why: SchedWhy::TooLong,
        });
    }
    let (header, number, rest) = header(b)?;
    let events = events(alloc, &header, number, rest)?;
    let schedule = Schedule {
        switches: header.switches,
        chain: header.chain,
        t_switch: header.t_switch,
        t_store: header.t_store,
        ratio: header.ratio,
        snapshot: header.snapshot,
        events,
    };
    Ok((schedule, number - 1))
}

/// Reads a schedule as `read` does, and gives beside it the number of the line of `mode`: there a schedule is refused that is well
/// formed and can't be run.
///
/// # Errors
/// Those of `read`.
pub fn read_with_mode(alloc: Global, b: &[u8]) -> Result<(Schedule, u64), SchedEnd>
    ensures exact { Gives (λ x. x.0) result (schedule_of b.now) }
    ensures mode { IfOk result (λ x. x.1 ≡ mode_at b.now) }
    ensures ready { IfOk result (λ x. IsReady x.0) }
{
    schedule(alloc, b)
}

/// Reads a schedule: a text of lines, of which empty ones and those that begin with `#` are passed over. The header comes first.
///
/// # Errors
/// `Refused` with the first line that fails and its cause, which is `NotYet` for `pump`, or `NoMemory`.
pub fn read(alloc: Global, b: &[u8]) -> Result<Schedule, SchedEnd>
    ensures exact { Gives (λ s. s) result (schedule_of b.now) }
    ensures ready { IfOk result IsReady }
{
    let (schedule, _) = read_with_mode(alloc, b)?;
    Ok(schedule)
}

/// Each schedule that is accepted is ready to run: nodes, terms and a bound in their ranges, terms that hold, and at most 20,000
/// events, each of which names nodes of this run alone.
pub fn accepted_schedules_are_ready()
    ensures { (text : List ℕ) → IfOk (schedule_of text) IsReady }
{}
