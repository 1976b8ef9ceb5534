//! A whole text: each line in its place, and what the lines say together.
ghost use Rattle.std.specs.Prelude.{◌≡◌, ◌+◌, ◌≤◌, length, ℕ, List, All, Ok};
ghost use Rattle.rp_base.specs.declared.legality.Flow.{Flow as FlowValue};
ghost use Rattle.rp_base.specs.declared.line.Line.{Line as LineValue};
ghost use Rattle.run_report.specs.Report.{lines_text};
ghost use Rattle.report_read.specs.Printed.{IsReportLine, said_from};
ghost use Rattle.report_read.specs.Whole.{AreEventLines, HaveKeys, refused_in, releases_in, whole_lines};
ghost use Rattle.report_read.specs.Words.{Reads};
ghost use Rattle.report_read.specs.Reading.{Gives, opening, at_event, at_serial, at_cells, at_end, taken, raw_taken, finished, with_line, report_of};

use crate::forms::line_of;
use crate::report::{FORM, LineEnd, Report, ReportEnd, ReportWhy};
use crate::words::first_line;
use key_table::KeyTable;
use rp_base::{Cells, Flow, Flows, Key, Line, Marks, Output, Released, Releases};
use std::alloc::Global;
use std::mem;

/// What may stand next.
#[derive(Debug, Drop)]
pub enum Place {
    /// Event lines, the first flow, or `end`.
    Events,
    /// The next flow, or `end`.
    Flows,
    /// The cells line of the flow of this serial line.
    Serial(Key, Marks),
    /// Nothing.
    Behind,
}

/// What the lines say that are read so far.
#[derive(Drop)]
pub struct Reading {
    /// What may stand next.
    pub place: Place,
    /// The event of the last event line.
    pub event: u64,
    /// What was released.
    pub releases: Releases,
    /// The refused events.
    pub refused: Marks,
    /// The keys of the serial lines.
    pub keys: KeyTable<()>,
    /// The flows whose cells are read.
    pub flows: Flows,
}

impl Reading {
    fn new(alloc: Global) -> Reading
        ensures { result ≡ opening }
    {
        Reading {
            place: Place::Events,
            event: 0,
            releases: Releases::new(alloc),
            refused: Marks::new(alloc),
            keys: KeyTable::new(alloc),
            flows: Flows::new(alloc),
        }
    }

    // An event line of one of so many events.
    fn at_event(&mut self, events: u64, event: u64) -> Result<(), LineEnd>
        ensures { Reads (λ _. self.new) result (at_event events event self.old self.old.place) }
    {
        if !matches!(self.place, Place::Events) {
            return Err(FORM);
        }
        if event < self.event || events < event {
            return Err(LineEnd::Refused(ReportWhy::Event));
        }
        self.event = event;
        Ok(())
    }

    fn serial(&mut self, key: Key, marks: Marks) -> Result<(), LineEnd>
        ensures { Reads (λ _. self.new) result (at_serial key marks self.old self.old.place) }
    {
        if !matches!(self.place, Place::Events | Place::Flows) || self.keys.get(&key).is_some() {
            return Err(FORM);
        }
        self.keys.put(key, ())?;
        self.place = Place::Serial(key, marks);
        Ok(())
    }

    fn cells(&mut self, key: Key, cells: Cells) -> Result<(), LineEnd>
        ensures { Reads (λ _. self.new) result (at_cells key cells self.old self.old.place) }
    {
        match mem::replace(&mut self.place, Place::Flows) {
            Place::Serial(named, marks) => {
                if named.as_slice() != key.as_slice() {
                    return Err(FORM);
                }
                self.flows.push(Flow { key, marks, cells })?;
                Ok(())
            }
            _ => Err(FORM),
        }
    }

    fn end(&mut self) -> Result<(), LineEnd>
        ensures { Reads (λ _. self.new) result (at_end self.old self.old.place) }
    {
        if !matches!(self.place, Place::Events | Place::Flows) {
            return Err(FORM);
        }
        self.place = Place::Behind;
        Ok(())
    }

    fn release(&mut self, events: u64, event: u64, output: Output) -> Result<(), LineEnd>
        ensures { Reads (λ _. self.new) result (taken events self.old (Line.Release event output.mark output.port output.bytes)) }
    {
        self.at_event(events, event)?;
        self.releases.push(Released { event, output })?;
        Ok(())
    }

    // One line more.
    fn take(&mut self, events: u64, line: Line) -> Result<(), LineEnd>
        ensures { Reads (λ _. self.new) result (taken events self.old line) }
    {
        match line {
            Line::Release {
                event,
                mark,
                port,
                bytes,
            } => self.release(events, event, Output { mark, port, bytes }),
            Line::Drop { event, .. } => self.at_event(events, event),
            Line::Lost { event, .. } => self.at_event(events, event),
            Line::Refused { event, .. } => {
                self.at_event(events, event)?;
                self.refused.push(event)?;
                Ok(())
            }
            Line::Stranger { event, .. } => self.at_event(events, event),
            Line::Serial { key, marks } => self.serial(key, marks),
            Line::Cells { key, cells } => self.cells(key, cells),
            Line::End => self.end(),
            Line::Send { .. } | Line::Epoch { .. } => Err(FORM),
        }
    }

    // A line of the text, with or without its line feed.
    fn take_text(
        &mut self,
        alloc: Global,
        events: u64,
        text: &[u8],
        ended: bool,
    ) -> Result<(), LineEnd>
        ensures { Reads (λ _. self.new) result (raw_taken events self.old (text.now, ended)) }
    {
        if matches!(self.place, Place::Behind) {
            return Err(LineEnd::Refused(ReportWhy::End));
        }
        if !ended {
            return Err(FORM);
        }
        let line = line_of(alloc, text)?;
        self.take(events, line)
    }

    // The report, where the line `end` was read before this one.
    fn finish(self, line: u64) -> Result<Report, ReportEnd>
        ensures { Gives (λ x. x) result (finished line self) }
    {
        if !matches!(self.place, Place::Behind) {
            return Err(ReportEnd::Refused {
                line,
                why: ReportWhy::End,
            });
        }
        Ok(Report {
            releases: self.releases,
            flows: self.flows,
            refused: self.refused,
        })
    }
}

// Why a line isn't read, with its number.
fn with_line(line: u64, end: LineEnd) -> ReportEnd
    ensures { result ≡ with_line line end }
{
    match end {
        LineEnd::Refused(why) => ReportEnd::Refused { line, why },
        LineEnd::NoMemory => ReportEnd::NoMemory,
    }
}

/// Reads a report of a run of so many events: event lines, the lines of each flow, and `end`.
///
/// # Errors
/// `Refused` with the first line that fails and its cause, or `NoMemory`.
#[tactic(auto, unfolding(crate::specs::Reading::report_of))]
pub fn read(alloc: Global, b: &[u8], events: u64) -> Result<Report, ReportEnd>
    ensures { Gives (λ x. x) result (report_of events b.now) }
{
    if b.len() > 67_108_864 {
        return Err(ReportEnd::Refused {
            line: 0,
            why: ReportWhy::TooLong,
        });
    }
    let mut reading = Reading::new(alloc);
    let mut number = 1;
    let mut rest = b;
    while !rest.is_empty() {
        let (line, ended, after) = first_line(rest);
        if let Err(end) = reading.take_text(alloc, events, line, ended) {
            return Err(with_line(number, end));
        }
        number += 1;
        rest = after;
    }
    reading.finish(number)
}

/// The text of report lines without frames reads as what these lines say one after the other.
pub fn printed_lines_are_read()
    ensures { (events : ℕ) (ls : List LineValue) → All IsReportLine ls → length (lines_text ls) ≤ 67108864 → report_of events (lines_text ls) ≡ said_from events 1 opening ls }
{}

/// The text of a whole report reads as the releases and refusals of its event lines, and its flows.
pub fn whole_reports_are_read()
    ensures { (events : ℕ) (ls : List LineValue) (fs : List FlowValue) → All IsReportLine (whole_lines ls fs) → AreEventLines events 0 ls → HaveKeys fs → length (lines_text (whole_lines ls fs)) ≤ 67108864 → report_of events (lines_text (whole_lines ls fs)) ≡ Ok (record { releases = releases_in ls; flows = fs; refused = refused_in ls }) }
{}
