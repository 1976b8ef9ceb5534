//! The parts of frames, written.
ghost use Rattle.std.specs.Prelude.{◌≡◌, ◌≤◌, ◌<◌, ◌^◌, ◌++◌, ◌∷◌, true, length, OnOk, IfOk, Ok};
ghost use Rattle.std.specs.List.{flat_map};
ghost use Rattle.proto_data.specs.MessageFits.{message_fits, load_fits, mark_fits};
ghost use Rattle.rp_frame.specs.Reading.{all_of};
ghost use Rattle.rp_frame.specs.Spelling.{number_bytes, short_bytes, value_bytes, member_bytes, key_bytes, cells_bytes, delta_bytes, load_bytes, mark_bytes, node_byte, spelling, kind};

use crate::ranges::fields_in;
use crate::writing_kinds::put_body;
use proto_data::{Body, Carried, Msg};
use rp_app::Delta;
use rp_base::{Bytes, Key, NoMemory, Node};
use std::alloc::Global;

pub fn put_number(out: &mut Bytes, n: u64) -> Result<(), NoMemory>
    requires { n < 2 ^ 32 }
    ensures { OnOk result (out.new ≡ out.old ++ number_bytes n) }
{
    out.append(&(n as u32).to_be_bytes())
}

fn put_short(out: &mut Bytes, n: u16) -> Result<(), NoMemory>
    ensures { OnOk result (out.new ≡ out.old ++ short_bytes n) }
{
    out.append(&n.to_be_bytes())
}

pub fn put_two(out: &mut Bytes, a: u64, b: u64) -> Result<(), NoMemory>
    requires a { a < 2 ^ 32 }
    requires b { b < 2 ^ 32 }
    ensures { OnOk result (out.new ≡ out.old ++ number_bytes a ++ number_bytes b) }
{
    put_number(out, a)?;
    put_number(out, b)
}

pub fn put_three(out: &mut Bytes, a: u64, b: u64, c: u64) -> Result<(), NoMemory>
    requires a { a < 2 ^ 32 }
    requires b { b < 2 ^ 32 }
    requires c { c < 2 ^ 32 }
    ensures { OnOk result (out.new ≡ out.old ++ number_bytes a ++ number_bytes b ++ number_bytes c) }
{
    put_number(out, a)?;
    put_number(out, b)?;
    put_number(out, c)
}

pub fn put_key(out: &mut Bytes, key: &Key) -> Result<(), NoMemory>
    ensures { OnOk result (out.new ≡ out.old ++ key_bytes key.now) }
{
    out.push(key.as_slice().len() as u8)?;
    out.append(key.as_slice())
}

// Cells behind their count.
pub fn put_cells(out: &mut Bytes, cells: &[u64]) -> Result<(), NoMemory>
    requires { length cells.now ≤ 256 }
    ensures { OnOk result (out.new ≡ out.old ++ cells_bytes cells.now) }
{
    put_short(out, cells.len() as u16)?;
    put_values(out, cells)
}

fn put_values(out: &mut Bytes, cells: &[u64]) -> Result<(), NoMemory>
    ensures { OnOk result (out.new ≡ out.old ++ flat_map value_bytes cells.now) }
{
    for v in cells {
        out.append(&v.to_be_bytes())?;
    }
    Ok(())
}

pub fn put_delta(out: &mut Bytes, delta: &Delta) -> Result<(), NoMemory>
    ensures { OnOk result (out.new ≡ out.old ++ delta_bytes delta.now) }
{
    put_short(out, delta.len() as u16)?;
    put_members(out, delta.as_slice())
}

fn put_members(out: &mut Bytes, pairs: &[(u16, u64)]) -> Result<(), NoMemory>
    ensures { OnOk result (out.new ≡ out.old ++ flat_map member_bytes pairs.now) }
{
    for pair in pairs {
        put_short(out, pair.0)?;
        out.append(&pair.1.to_be_bytes())?;
    }
    Ok(())
}

pub fn put_load(out: &mut Bytes, load: &Option<Carried>) -> Result<(), NoMemory>
    requires { load_fits load.now ≡ true }
    ensures { OnOk result (out.new ≡ out.old ++ load_bytes load.now) }
{
    match load {
        None => out.push(0),
        Some(c) => {
            out.push(1)?;
            put_number(out, c.mark)?;
            put_short(out, c.port)?;
            put_short(out, c.bytes.len() as u16)?;
            out.append(c.bytes.as_slice())
        }
    }
}

pub fn put_mark(out: &mut Bytes, mark: &Option<u64>) -> Result<(), NoMemory>
    requires { mark_fits mark.now ≡ true }
    ensures { OnOk result (out.new ≡ out.old ++ mark_bytes mark.now) }
{
    match mark {
        None => out.push(0),
        Some(mark) => {
            out.push(1)?;
            put_number(out, *mark)
        }
    }
}

fn byte_of(node: Node) -> u8
    requires { node_byte node < 256 }
    ensures { result ≡ node_byte node }
{
    match node {
        Node::Switch(n) => n,
        Node::Replica(n) => 16 + n,
        Node::Master => 32,
    }
}

/// The byte of a message's kind, from 1 to 11.
pub fn kind_of(body: &Body) -> u8
    ensures { result ≡ kind body.now }
{
    match body {
        Body::Ask { .. } => 1,
        Body::Grant { .. } => 2,
        Body::Busy { .. } => 3,
        Body::Put { .. } => 4,
        Body::Ack { .. } => 5,
        Body::Deny { .. } => 6,
        Body::Forward { .. } => 7,
        Body::Have { .. } => 8,
        Body::Echo { .. } => 9,
        Body::Config(_) => 10,
        Body::Snap { .. } => 11,
    }
}

/// The one spelling of a message that fits.
///
/// # Errors
/// `NoMemory`.
pub fn encode(alloc: Global, m: &Msg) -> Result<Bytes, NoMemory>
    requires { message_fits m.now ≡ true }
    ensures spelled { IfOk result (λ frame. frame ≡ spelling m.now) }
    ensures again { IfOk result (λ frame. all_of frame ≡ Ok m.now) }
{
    let mut out = Bytes::new(alloc);
    out.append(&[
        0x52,
        0x50,
        1,
        kind_of(&m.body),
        byte_of(m.from),
        byte_of(m.to),
    ])?;
    put_body(&mut out, &m.body)?;
    fields_in(&m.body);
    Ok(out)
}
