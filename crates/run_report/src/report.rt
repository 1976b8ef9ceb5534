//! The text of each line of a report.
ghost use Rattle.std.specs.Prelude.{◌≡◌, ◌≤◌, IfOk, decimal};
ghost use Rattle.hex.specs.Hex.{encode_lower};
ghost use Rattle.run_report.specs.Words.{◌␣◌};
ghost use Rattle.run_report.specs.Report.{line_text, line_words, NamesKind};

use crate::names::{drop_name, kind_name, lost_name, refusal_name};
use crate::text::Text;
use rp_base::{Bytes, DropCause, Key, Line, Marks, NoMemory, Node};
use std::alloc::Global;

// An output that leaves a switch.
fn release(alloc: Global, event: u64, mark: u64, port: u16, bytes: &Bytes) -> Result<Text, NoMemory>
    ensures { IfOk result (λ text. text ≡ line_words (Line.Release event mark port bytes.now)) }
{
    Text::of(alloc, b"release")?
        .number(event)?
        .number(mark)?
        .number(u64::from(port))?
        .hex_or_dash(bytes.as_slice())
}

// A packet that is dropped.
fn dropped(alloc: Global, event: u64, mark: u64, cause: DropCause) -> Result<Text, NoMemory>
    ensures { IfOk result (λ text. text ≡ line_words (Line.Drop event mark cause)) }
{
    Text::of(alloc, b"drop")?
        .number(event)?
        .number(mark)?
        .word(drop_name(cause))
}

// A frame that is sent.
fn send(
    alloc: Global,
    event: u64,
    frame: u64,
    from: Node,
    to: Node,
    kind: u8,
    bytes: &Bytes,
) -> Result<Text, NoMemory>
    requires some { 1 ≤ kind }
    requires fits { kind ≤ 11 }
    ensures { IfOk result (λ text. text ≡ line_words (Line.Send event frame from to kind bytes.now)) }
{
    Text::of(alloc, b"send")?
        .number(event)?
        .number(frame)?
        .node(from)?
        .node(to)?
        .word(kind_name(kind))?
        .hex(bytes.as_slice())
}

// A name and the number of an event.
fn event_words(alloc: Global, name: &[u8], event: u64) -> Result<Text, NoMemory>
    ensures { IfOk result (λ text. text ≡ name.now ␣ decimal event) }
{
    Text::of(alloc, name)?.number(event)
}

// A name and the key of a flow.
fn flow_words(alloc: Global, name: &[u8], key: &Key) -> Result<Text, NoMemory>
    ensures { IfOk result (λ text. text ≡ name.now ␣ encode_lower key.now) }
{
    Text::of(alloc, name)?.hex(key.as_slice())
}

// An epoch of a flow, with the packets that the last snapshot has.
fn epoch_kept(
    alloc: Global,
    key: &Key,
    epoch: u64,
    kept: u64,
    marks: &Marks,
) -> Result<Text, NoMemory>
    ensures { IfOk result (λ text. text ≡ line_words (Line.Epoch key.now epoch kept marks.now)) }
{
    flow_words(alloc, b"epoch", key)?
        .number(epoch)?
        .number(kept)?
        .numbers(marks.as_slice())
}

// The words of a line.
fn words(alloc: Global, l: &Line) -> Result<Text, NoMemory>
    requires { NamesKind l.now }
    ensures { IfOk result (λ text. text ≡ line_words l.now) }
{
    match l {
        Line::Release {
            event,
            mark,
            port,
            bytes,
        } => release(alloc, *event, *mark, *port, bytes),
        Line::Drop { event, mark, cause } => dropped(alloc, *event, *mark, *cause),
        Line::Lost { event, cause } => event_words(alloc, b"lost", *event)?.word(lost_name(*cause)),
        Line::Refused { event, cause } => {
            event_words(alloc, b"refused", *event)?.word(refusal_name(*cause))
        }
        Line::Stranger { event, node } => event_words(alloc, b"stranger", *event)?.node(*node),
        Line::Send {
            event,
            frame,
            from,
            to,
            kind,
            bytes,
        } => { send(alloc, *event, *frame, *from, *to, *kind, bytes) }
        Line::Serial { key, marks } => {
            flow_words(alloc, b"serial", key)?.numbers(marks.as_slice())
        }
        Line::Epoch {
            key,
            epoch,
            kept,
            marks,
        } => epoch_kept(alloc, key, *epoch, *kept, marks),
        Line::Cells { key, cells } => flow_words(alloc, b"cells", key)?.numbers(cells.as_slice()),
        Line::End => Text::of(alloc, b"end"),
    }
}

/// The text of a line, with its line feed.
///
/// The kind of a frame that it names is 1 to 11.
///
/// # Errors
/// `NoMemory`.
pub fn line(alloc: Global, l: &Line) -> Result<Bytes, NoMemory>
    requires { NamesKind l.now }
    ensures { IfOk result (λ text. text ≡ line_text l.now) }
{
    words(alloc, l)?.line()
}
