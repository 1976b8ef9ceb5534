//! What the types of a message's parts give: bytes are below 256, values of cells below 2^64. The functions look and do nothing.
ghost use Rattle.std.specs.Prelude.{◌≡◌, ◌<◌, ◌^◌, true};
ghost use Rattle.rp_frame.specs.Ranges.{all_bytes, all_values, delta_in, load_in, entry_in, echoed_in, body_in};

use proto_data::{Body, Carried, Echoed, Entry};
use rp_base::Key;

fn bytes_in(bytes: &[u8])
    ensures { all_bytes bytes.now ≡ true }
{}

fn values_in(values: &[u64])
    ensures { all_values values.now ≡ true }
{}

fn value_in(value: u64)
    ensures { value < 2 ^ 64 }
{}

fn members_in(pairs: &[(u16, u64)])
    ensures { delta_in pairs.now ≡ true }
{
    for pair in pairs {
        value_in(pair.1);
    }
}

fn key_in(key: &Key)
    ensures { all_bytes key.now ≡ true }
{
    bytes_in(key.as_slice());
}

fn carried_in(load: &Option<Carried>)
    ensures { load_in load.now ≡ true }
{
    if let Some(carried) = load {
        bytes_in(carried.bytes.as_slice());
    }
}

fn written_in(entry: &Entry)
    ensures { entry_in entry.now ≡ true }
{
    match entry {
        Entry::Grant { key, .. } => key_in(key),
        Entry::Put { key, delta, .. } => {
            key_in(key);
            members_in(delta.as_slice());
        }
        Entry::Snap { key, cells, .. } => {
            key_in(key);
            values_in(cells.as_slice());
        }
    }
}

fn answered_in(of: &Echoed)
    ensures { echoed_in of.now ≡ true }
{
    match of {
        Echoed::Ask { key, .. } | Echoed::Put { key, .. } => key_in(key),
    }
}

/// The bytes and values of a message's fields are within their types.
pub fn fields_in(body: &Body)
    ensures { body_in body.now ≡ true }
{
    match body {
        Body::Ask { key, load, .. } | Body::Ack { key, load, .. } => {
            key_in(key);
            carried_in(load);
        }
        Body::Grant {
            key,
            cells,
            load,
            ..
        } => {
            key_in(key);
            values_in(cells.as_slice());
            carried_in(load);
        }
        Body::Busy { key, .. } | Body::Deny { key, .. } => key_in(key),
        Body::Put {
            key,
            delta,
            load,
            ..
        } => {
            key_in(key);
            members_in(delta.as_slice());
            carried_in(load);
        }
        Body::Forward { entry, load, .. } => {
            written_in(entry);
            carried_in(load);
        }
        Body::Echo { of, load } => {
            answered_in(of);
            carried_in(load);
        }
        Body::Snap { key, cells, .. } => {
            key_in(key);
            values_in(cells.as_slice());
        }
        Body::Have { .. } | Body::Config(_) => {}
    }
}
