//! The lines of a report without frames, by their first words.
ghost use Rattle.std.specs.Prelude.{◌≡◌};
ghost use Rattle.report_read.specs.Words.{Reads};
ghost use Rattle.report_read.specs.Values.{number, output, drop_cause, lost_cause, refusal, node, key};
ghost use Rattle.report_read.specs.Forms.{word_by, last_by, release, dropped, lost, refused, stranger, serial, cells, end_of, flow_line, line_by, line_of};

use crate::report::{FORM, LineEnd};
use crate::values::{drop_cause, key, lost_cause, node, number, output, port, refusal};
use crate::words::Words;
use rp_base::{Key, Line};
use std::alloc::Global;

// The number of an event or the mark of a packet, and the words behind it.
fn next_number(ws: Words<'_>) -> Result<(u64, Words<'_>), LineEnd>
    ensures { Reads (λ x. x) result (word_by number ws.entry) }
{
    let (word, ws) = ws.next()?;
    Ok((number(word)?, ws))
}

// The key of a flow, and the words behind it.
fn next_key(alloc: Global, ws: Words<'_>) -> Result<(Key, Words<'_>), LineEnd>
    ensures { Reads (λ x. x) result (word_by key ws.entry) }
{
    let (word, ws) = ws.next()?;
    Ok((key(alloc, word)?, ws))
}

fn release(alloc: Global, ws: Words<'_>) -> Result<Line, LineEnd>
    ensures { Reads (λ x. x) result (release ws.entry) }
{
    let (event, ws) = next_number(ws)?;
    let (mark, ws) = next_number(ws)?;
    let (word, ws) = ws.next()?;
    let port = port(word)?;
    let (word, ws) = ws.next()?;
    let bytes = output(alloc, word)?;
    ws.end()?;
    Ok(Line::Release {
        event,
        mark,
        port,
        bytes,
    })
}

fn dropped(ws: Words<'_>) -> Result<Line, LineEnd>
    ensures { Reads (λ x. x) result (dropped ws.entry) }
{
    let (event, ws) = next_number(ws)?;
    let (mark, ws) = next_number(ws)?;
    let (word, ws) = ws.next()?;
    let cause = drop_cause(word)?;
    ws.end()?;
    Ok(Line::Drop { event, mark, cause })
}

fn lost(ws: Words<'_>) -> Result<Line, LineEnd>
    ensures { Reads (λ x. x) result (lost ws.entry) }
{
    let (event, ws) = next_number(ws)?;
    let (word, ws) = ws.next()?;
    let cause = lost_cause(word)?;
    ws.end()?;
    Ok(Line::Lost { event, cause })
}

fn refused(ws: Words<'_>) -> Result<Line, LineEnd>
    ensures { Reads (λ x. x) result (refused ws.entry) }
{
    let (event, ws) = next_number(ws)?;
    let (word, ws) = ws.next()?;
    let cause = refusal(word)?;
    ws.end()?;
    Ok(Line::Refused { event, cause })
}

fn stranger(ws: Words<'_>) -> Result<Line, LineEnd>
    ensures { Reads (λ x. x) result (stranger ws.entry) }
{
    let (event, ws) = next_number(ws)?;
    let (word, ws) = ws.next()?;
    let node = node(word)?;
    ws.end()?;
    Ok(Line::Stranger { event, node })
}

fn serial(alloc: Global, ws: Words<'_>) -> Result<Line, LineEnd>
    ensures { Reads (λ x. x) result (serial ws.entry) }
{
    let (key, ws) = next_key(alloc, ws)?;
    let marks = ws.numbers(alloc)?;
    Ok(Line::Serial { key, marks })
}

fn cells(alloc: Global, ws: Words<'_>) -> Result<Line, LineEnd>
    ensures { Reads (λ x. x) result (cells ws.entry) }
{
    let (key, ws) = next_key(alloc, ws)?;
    let cells = ws.numbers(alloc)?;
    Ok(Line::Cells { key, cells })
}

fn end_of(ws: Words<'_>) -> Result<Line, LineEnd>
    ensures { Reads (λ x. x) result (end_of ws.entry) }
{
    ws.end()?;
    Ok(Line::End)
}

fn flow_line(alloc: Global, name: &[u8], ws: Words<'_>) -> Result<Line, LineEnd>
    ensures { Reads (λ x. x) result (flow_line name.now ws.entry) }
{
    if name == b"serial".as_slice() {
        serial(alloc, ws)
    } else if name == b"cells".as_slice() {
        cells(alloc, ws)
    } else if name == b"end".as_slice() {
        end_of(ws)
    } else {
        Err(FORM)
    }
}

fn line_by(alloc: Global, name: &[u8], ws: Words<'_>) -> Result<Line, LineEnd>
    ensures { Reads (λ x. x) result (line_by name.now ws.entry) }
{
    if name == b"release".as_slice() {
        release(alloc, ws)
    } else if name == b"drop".as_slice() {
        dropped(ws)
    } else if name == b"lost".as_slice() {
        lost(ws)
    } else if name == b"refused".as_slice() {
        refused(ws)
    } else if name == b"stranger".as_slice() {
        stranger(ws)
    } else {
        flow_line(alloc, name, ws)
    }
}

/// What a line says, whose line feed was taken off.
///
/// # Errors
/// `Form` where it is no line of a report, or `NoMemory`.
pub(crate) fn line_of(alloc: Global, text: &[u8]) -> Result<Line, LineEnd>
    ensures { Reads (λ x. x) result (line_of text.now) }
{
    let (name, ws) = Words::of(text).next()?;
    line_by(alloc, name, ws)
}
