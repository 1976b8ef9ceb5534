//! The fields of each kind of message, written.
ghost use Rattle.std.specs.Prelude.{◌≡◌, ◌<◌, ◌++◌, true, OnOk};
ghost use Rattle.proto_data.specs.declared.message.Body.{Body as BodyValue};
ghost use Rattle.proto_data.specs.declared.message.Entry.{Entry as EntryValue};
ghost use Rattle.proto_data.specs.declared.message.Echoed.{Echoed as EchoedValue};
ghost use Rattle.proto_data.specs.MessageFits.{body_fits, entry_spelled, echoed_fits, config_fits};
ghost use Rattle.rp_frame.specs.Spelling.{body_bytes, entry_bytes, echoed_bytes, config_bytes, kind};

use crate::writing::{
    put_cells, put_delta, put_key, put_load, put_mark, put_number, put_three, put_two,
};
use proto_data::{Body, Carried, Chunk, Config, Echoed, Entry};
use rp_app::Delta;
use rp_base::{Bytes, Cells, Key, NoMemory};

fn put_entry(out: &mut Bytes, entry: &Entry) -> Result<(), NoMemory>
    requires { entry_spelled entry.now ≡ true }
    ensures { OnOk result (out.new ≡ out.old ++ entry_bytes entry.now) }
{
    match entry {
        Entry::Grant {
            key,
            epoch,
            switch,
            inc,
            nonce,
        } => {
            out.push(1)?;
            put_key(out, key)?;
            put_number(out, *epoch)?;
            out.push(*switch)?;
            put_two(out, *inc, *nonce)
        }
        Entry::Put {
            key,
            epoch,
            number,
            delta,
        } => {
            out.push(2)?;
            put_key(out, key)?;
            put_two(out, *epoch, *number)?;
            put_delta(out, delta)
        }
        Entry::Snap {
            key,
            epoch,
            round,
            cells,
        } => {
            out.push(3)?;
            put_key(out, key)?;
            put_two(out, *epoch, *round)?;
            put_cells(out, cells.as_slice())
        }
    }
}

fn put_echoed(out: &mut Bytes, of: &Echoed) -> Result<(), NoMemory>
    requires { echoed_fits of.now ≡ true }
    ensures { OnOk result (out.new ≡ out.old ++ echoed_bytes of.now) }
{
    match of {
        Echoed::Ask {
            switch,
            inc,
            nonce,
            key,
        } => {
            out.append(&[1, *switch])?;
            put_two(out, *inc, *nonce)?;
            put_key(out, key)
        }
        Echoed::Put {
            switch,
            epoch,
            number,
            key,
        } => {
            out.append(&[2, *switch])?;
            put_two(out, *epoch, *number)?;
            put_key(out, key)
        }
    }
}

fn put_config(out: &mut Bytes, config: &Config) -> Result<(), NoMemory>
    requires { config_fits config.now ≡ true }
    ensures { OnOk result (out.new ≡ out.old ++ config_bytes config.now) }
{
    put_number(out, config.number)?;
    out.push(config.chain.as_slice().len() as u8)?;
    out.append(config.chain.as_slice())
}

fn put_ask(
    out: &mut Bytes,
    inc: u64,
    nonce: u64,
    key: &Key,
    load: &Option<Carried>,
) -> Result<(), NoMemory>
    requires { body_fits (BodyValue.Ask inc nonce key.now load.now) ≡ true }
    ensures { OnOk result (out.new ≡ out.old ++ body_bytes (BodyValue.Ask inc nonce key.now load.now)) }
{
    put_two(out, inc, nonce)?;
    put_key(out, key)?;
    put_load(out, load)
}

fn put_grant(
    out: &mut Bytes,
    inc: u64,
    nonce: u64,
    epoch: u64,
    key: &Key,
    cells: &Cells,
    load: &Option<Carried>,
) -> Result<(), NoMemory>
    requires { body_fits (BodyValue.Grant inc nonce epoch key.now cells.now load.now) ≡ true }
    ensures { OnOk result (out.new ≡ out.old ++ body_bytes (BodyValue.Grant inc nonce epoch key.now cells.now load.now)) }
{
    put_three(out, inc, nonce, epoch)?;
    put_key(out, key)?;
    put_cells(out, cells.as_slice())?;
    put_load(out, load)
}

fn put_busy(
    out: &mut Bytes,
    inc: u64,
    nonce: u64,
    key: &Key,
    mark: &Option<u64>,
) -> Result<(), NoMemory>
    requires { body_fits (BodyValue.Busy inc nonce key.now mark.now) ≡ true }
    ensures { OnOk result (out.new ≡ out.old ++ body_bytes (BodyValue.Busy inc nonce key.now mark.now)) }
{
    put_two(out, inc, nonce)?;
    put_key(out, key)?;
    put_mark(out, mark)
}

fn put_put(
    out: &mut Bytes,
    inc: u64,
    epoch: u64,
    number: u64,
    key: &Key,
    delta: &Delta,
    load: &Option<Carried>,
) -> Result<(), NoMemory>
    requires { body_fits (BodyValue.Put inc epoch number key.now delta.now load.now) ≡ true }
    ensures { OnOk result (out.new ≡ out.old ++ body_bytes (BodyValue.Put inc epoch number key.now delta.now load.now)) }
{
    put_three(out, inc, epoch, number)?;
    put_key(out, key)?;
    put_delta(out, delta)?;
    put_load(out, load)
}

fn put_ack(
    out: &mut Bytes,
    inc: u64,
    epoch: u64,
    upto: u64,
    key: &Key,
    load: &Option<Carried>,
) -> Result<(), NoMemory>
    requires { body_fits (BodyValue.Ack inc epoch upto key.now load.now) ≡ true }
    ensures { OnOk result (out.new ≡ out.old ++ body_bytes (BodyValue.Ack inc epoch upto key.now load.now)) }
{
    put_three(out, inc, epoch, upto)?;
    put_key(out, key)?;
    put_load(out, load)
}

fn put_deny(out: &mut Bytes, inc: u64, epoch: u64, key: &Key) -> Result<(), NoMemory>
    requires { body_fits (BodyValue.Deny inc epoch key.now) ≡ true }
    ensures { OnOk result (out.new ≡ out.old ++ body_bytes (BodyValue.Deny inc epoch key.now)) }
{
    put_two(out, inc, epoch)?;
    put_key(out, key)
}

fn put_forward(
    out: &mut Bytes,
    config: u64,
    index: u64,
    entry: &Entry,
    load: &Option<Carried>,
) -> Result<(), NoMemory>
    requires { body_fits (BodyValue.Forward config index entry.now load.now) ≡ true }
    ensures { OnOk result (out.new ≡ out.old ++ body_bytes (BodyValue.Forward config index entry.now load.now)) }
{
    put_two(out, config, index)?;
    put_entry(out, entry)?;
    put_load(out, load)
}

fn put_echo(out: &mut Bytes, of: &Echoed, load: &Option<Carried>) -> Result<(), NoMemory>
    requires { body_fits (BodyValue.Echo of.now load.now) ≡ true }
    ensures { OnOk result (out.new ≡ out.old ++ body_bytes (BodyValue.Echo of.now load.now)) }
{
    put_echoed(out, of)?;
    put_load(out, load)
}

fn put_snap(
    out: &mut Bytes,
    inc: u64,
    epoch: u64,
    round: u64,
    key: &Key,
    chunk: u8,
    chunks: u8,
    cells: &Chunk,
) -> Result<(), NoMemory>
    requires { body_fits (BodyValue.Snap inc epoch round key.now chunk chunks cells.now) ≡ true }
    ensures { OnOk result (out.new ≡ out.old ++ body_bytes (BodyValue.Snap inc epoch round key.now chunk chunks cells.now)) }
{
    put_three(out, inc, epoch, round)?;
    put_key(out, key)?;
    out.append(&[chunk, chunks])?;
    put_cells(out, cells.as_slice())
}

// The fields of a message.
pub fn put_body(out: &mut Bytes, body: &Body) -> Result<(), NoMemory>
    requires { body_fits body.now ≡ true }
    ensures { OnOk result (out.new ≡ out.old ++ body_bytes body.now) }
{
    match body {
        Body::Ask {
            inc,
            nonce,
            key,
            load,
        } => put_ask(out, *inc, *nonce, key, load),
        Body::Grant {
            inc,
            nonce,
            epoch,
            key,
            cells,
            load,
        } => put_grant(out, *inc, *nonce, *epoch, key, cells, load),
        Body::Busy {
            inc,
            nonce,
            key,
            mark,
        } => put_busy(out, *inc, *nonce, key, mark),
        Body::Put {
            inc,
            epoch,
            number,
            key,
            delta,
            load,
        } => put_put(out, *inc, *epoch, *number, key, delta, load),
        _ => put_later(out, body),
    }
}

// The fields of a message of a kind above 4.
fn put_later(out: &mut Bytes, body: &Body) -> Result<(), NoMemory>
    requires fits { body_fits body.now ≡ true }
    requires later { 4 < kind body.now }
    ensures { OnOk result (out.new ≡ out.old ++ body_bytes body.now) }
{
    match body {
        Body::Ack {
            inc,
            epoch,
            upto,
            key,
            load,
        } => put_ack(out, *inc, *epoch, *upto, key, load),
        Body::Deny { inc, epoch, key } => put_deny(out, *inc, *epoch, key),
        Body::Forward {
            config,
            index,
            entry,
            load,
        } => put_forward(out, *config, *index, entry, load),
        Body::Have { index } => put_number(out, *index),
        Body::Echo { of, load } => put_echo(out, of, load),
        Body::Config(config) => put_config(out, config),
        Body::Snap {
            inc,
            epoch,
            round,
            key,
            chunk,
            chunks,
            cells,
        } => put_snap(out, *inc, *epoch, *round, key, *chunk, *chunks, cells),
        _ => unreachable!(),
    }
}
