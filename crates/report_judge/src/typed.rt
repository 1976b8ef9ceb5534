//! The values of a line are of the types of its fields. No call here does anything: what its argument's type says is what it ensures.
ghost use Rattle.std.specs.Prelude.{◌<◌, All};
ghost use Rattle.hex.specs.Hex.{IsBytes};
ghost use Rattle.report_read.specs.Printed.{IsKey, IsNumber};
ghost use Rattle.report_judge.specs.Typed.{IsTyped};

use rp_base::{Bytes, Key, Line, Marks};

fn are_bytes(bytes: &Bytes)
    ensures { IsBytes bytes.now }
{
    let items = bytes.as_slice();
    let _ = items.len();
}

fn is_key(key: &Key)
    ensures { IsKey key.now }
{
    let items = key.as_slice();
    let _ = items.len();
}

fn are_numbers(numbers: &Marks)
    ensures { All IsNumber numbers.now }
{
    let items = numbers.as_slice();
    let _ = items.len();
}

fn is_number(n: u64)
    ensures { IsNumber n }
{}

fn is_port(port: u16)
    ensures { port < 65536 }
{}

fn is_kind(kind: u8)
    ensures { kind < 256 }
{}

/// Each value of a line is of the type of its field.
pub fn line_is_typed(line: &Line)
    ensures { IsTyped line.now }
{
    match line {
        Line::Release {
            event,
            mark,
            port,
            bytes,
        } => {
            is_number(*event);
            is_number(*mark);
            is_port(*port);
            are_bytes(bytes)
        }
        Line::Drop { event, mark, .. } => {
            is_number(*event);
            is_number(*mark)
        }
        Line::Lost { event, .. } => is_number(*event),
        Line::Refused { event, .. } => is_number(*event),
        Line::Stranger { event, .. } => is_number(*event),
        Line::Send {
            event,
            frame,
            kind,
            bytes,
            ..
        } => {
            is_number(*event);
            is_number(*frame);
            is_kind(*kind);
            are_bytes(bytes)
        }
        Line::Serial { key, marks } => {
            is_key(key);
            are_numbers(marks)
        }
        Line::Epoch {
            key,
            epoch,
            kept,
            marks,
        } => {
            is_key(key);
            is_number(*epoch);
            is_number(*kept);
            are_numbers(marks)
        }
        Line::Cells { key, cells } => {
            is_key(key);
            are_numbers(cells)
        }
        Line::End => {}
    }
}
