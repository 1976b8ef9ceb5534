//! Which messages have a spelling as a frame.
ghost use Rattle.std.specs.Prelude.{ℕ, ◌≡◌, ◌<◌, ◌&&◌, true, nat_lt, nat_le, length};
ghost use Rattle.std.specs.List.{list_all};
ghost use Rattle.rp_app.specs.Application.{cells_named, rising};
ghost use Rattle.proto_data.specs.MessageFits.{are_u32, body_fits, cells_fit, config_fits, delta_fits, echoed_fits, entry_spelled, from_master, is_answer, is_request, is_store, is_switch, is_u32, key_fits, load_fits, mark_fits, message_fits, nodes_fit, switch_fits};

use crate::limits::{REPLICAS, SWITCHES};
use crate::message::{Body, Carried, Config, Echoed, Entry, Msg};
use rp_app::Delta;
use rp_base::{Cells, Key, Node};

fn is_u32(n: u64) -> bool
    ensures { result ≡ is_u32 n }
{
    n < 1 << 32
}

fn are_u32(a: u64, b: u64, c: u64) -> bool
    ensures { result ≡ are_u32 a b c }
{
    is_u32(a) && is_u32(b) && is_u32(c)
}

fn key_fits(key: &Key) -> bool
    ensures { result ≡ key_fits key.now }
{
    let bytes = key.as_slice();
    1 <= bytes.len() && bytes.len() <= 16
}

fn cells_fit(cells: &Cells) -> bool
    ensures { result ≡ cells_fit cells.now }
{
    cells.as_slice().len() <= 256
}

fn cells_rise(pairs: &[(u16, u64)]) -> bool
    ensures { result ≡ rising (cells_named pairs.now) }
{
    match pairs {
        [first, rest @ ..] => match rest {
            [second, ..] => first.0 < second.0 && cells_rise(rest),
            [] => true,
        },
        [] => true,
    }
}

fn cells_are_within(pairs: &[(u16, u64)]) -> bool
    ensures { result ≡ list_all (λ c. nat_lt c 256) (cells_named pairs.now) }
{
    match pairs {
        [first, rest @ ..] => first.0 < 256 && cells_are_within(rest),
        [] => true,
    }
}

fn delta_fits(delta: &Delta) -> bool
    ensures { result ≡ delta_fits delta.now }
{
    let pairs = delta.as_slice();
    pairs.len() <= 256 && cells_rise(pairs) && cells_are_within(pairs)
}

fn load_fits(load: &Option<Carried>) -> bool
    ensures { result ≡ load_fits load.now }
{
    match load {
        Some(carried) => {
            let _port = carried.port;
            is_u32(carried.mark) && carried.bytes.as_slice().len() <= 1500
        }
        None => true,
    }
}

fn mark_fits(mark: &Option<u64>) -> bool
    ensures { result ≡ mark_fits mark.now }
{
    match mark {
        Some(mark) => is_u32(*mark),
        None => true,
    }
}

fn switch_fits(switch: u8) -> bool
    ensures { result ≡ switch_fits switch }
{
    switch < SWITCHES
}

fn entry_fits(entry: &Entry) -> bool
    ensures { result ≡ entry_spelled entry.now }
{
    match entry {
        Entry::Grant {
            key,
            epoch,
            switch,
            inc,
            nonce,
        } => key_fits(key) && are_u32(*epoch, *inc, *nonce) && switch_fits(*switch),
        Entry::Put {
            key,
            epoch,
            number,
            delta,
        } => key_fits(key) && are_u32(*epoch, *number, 0) && delta_fits(delta),
        Entry::Snap {
            key,
            epoch,
            round,
            cells,
        } => key_fits(key) && are_u32(*epoch, *round, 0) && cells_fit(cells),
    }
}

fn echoed_fits(of: &Echoed) -> bool
    ensures { result ≡ echoed_fits of.now }
{
    match of {
        Echoed::Ask {
            switch,
            inc,
            nonce,
            key,
        } => switch_fits(*switch) && are_u32(*inc, *nonce, 0) && key_fits(key),
        Echoed::Put {
            switch,
            epoch,
            number,
            key,
        } => switch_fits(*switch) && are_u32(*epoch, *number, 0) && key_fits(key),
    }
}

fn rising(members: &[u8]) -> bool
    ensures { result ≡ rising members.now }
{
    match members {
        [first, rest @ ..] => match rest {
            [second, ..] => first < second && rising(rest),
            [] => true,
        },
        [] => true,
    }
}

fn are_replicas(members: &[u8]) -> bool
    ensures { result ≡ list_all (λ n. nat_lt n 5) members.now }
{
    match members {
        [first, rest @ ..] => *first < REPLICAS && are_replicas(rest),
        [] => true,
    }
}

fn config_fits(config: &Config) -> bool
    ensures { result ≡ config_fits config.now }
{
    let members = config.chain.as_slice();
    is_u32(config.number)
        && 1 <= members.len()
        && members.len() <= 5
        && rising(members)
        && are_replicas(members)
}

// The fields of what a switch asks.
fn request_fits(body: &Body) -> bool
    requires { is_request body.now ≡ true }
    ensures { result ≡ body_fits body.now }
{
    match body {
        Body::Ask {
            inc,
            nonce,
            key,
            load,
        } => are_u32(*inc, *nonce, 0) && key_fits(key) && load_fits(load),
        Body::Put {
            inc,
            epoch,
            number,
            key,
            delta,
            load,
        } => are_u32(*inc, *epoch, *number)
            && key_fits(key)
            && delta_fits(delta)
            && load_fits(load),
        Body::Snap {
            inc,
            epoch,
            round,
            key,
            chunk,
            chunks,
            cells,
        } => are_u32(*inc, *epoch, *round)
            && key_fits(key)
            && *chunk < *chunks
            && *chunks <= 8
            && cells.as_slice().len() <= 32,
        _ => unreachable!(),
    }
}

// The fields of what the store answers.
fn answer_fits(body: &Body) -> bool
    requires { is_answer body.now ≡ true }
    ensures { result ≡ body_fits body.now }
{
    match body {
        Body::Grant {
            inc,
            nonce,
            epoch,
            key,
            cells,
            load,
        } => are_u32(*inc, *nonce, *epoch) && key_fits(key) && cells_fit(cells) && load_fits(load),
        Body::Busy {
            inc,
            nonce,
            key,
            mark,
        } => are_u32(*inc, *nonce, 0) && key_fits(key) && mark_fits(mark),
        Body::Ack {
            inc,
            epoch,
            upto,
            key,
            load,
        } => are_u32(*inc, *epoch, *upto) && key_fits(key) && load_fits(load),
        Body::Deny { inc, epoch, key } => are_u32(*inc, *epoch, 0) && key_fits(key),
        _ => unreachable!(),
    }
}

fn body_fits(body: &Body) -> bool
    ensures { result ≡ body_fits body.now }
{
    match body {
        Body::Ask { .. } | Body::Put { .. } | Body::Snap { .. } => request_fits(body),
        Body::Grant { .. } | Body::Busy { .. } | Body::Ack { .. } | Body::Deny { .. } => {
            answer_fits(body)
        }
        Body::Forward {
            config,
            index,
            entry,
            load,
        } => are_u32(*config, *index, 0) && entry_fits(entry) && load_fits(load),
        Body::Have { index } => is_u32(*index),
        Body::Echo { of, load } => echoed_fits(of) && load_fits(load),
        Body::Config(config) => config_fits(config),
    }
}

fn is_switch(node: Node) -> bool
    ensures { result ≡ is_switch node }
{
    match node {
        Node::Switch(n) => switch_fits(n),
        _ => false,
    }
}

fn is_store(node: Node) -> bool
    ensures { result ≡ is_store node }
{
    match node {
        Node::Replica(n) => n < REPLICAS,
        _ => false,
    }
}

fn from_master(from: Node, to: Node) -> bool
    ensures { result ≡ from_master from to }
{
    match from {
        Node::Master => is_switch(to) || is_store(to),
        _ => false,
    }
}

fn nodes_fit(from: Node, to: Node, body: &Body) -> bool
    ensures { result ≡ nodes_fit from to body.now }
{
    match body {
        Body::Ask { .. } | Body::Put { .. } | Body::Snap { .. } => is_switch(from) && is_store(to),
        Body::Grant { .. } | Body::Busy { .. } | Body::Ack { .. } | Body::Deny { .. } => {
            is_store(from) && is_switch(to)
        }
        Body::Forward { .. } | Body::Have { .. } | Body::Echo { .. } => is_store(from)
            && is_store(to),
        Body::Config(_) => from_master(from, to),
    }
}

impl Msg {
    ghost use Rattle.proto_data.specs.MessageFits.{message_fits};

    /// Whether this message has a spelling as a frame: its nodes are of the sorts that its kind goes between, its rising
    /// lists rise, and every number and length is in its field's range.
    pub fn fits(&self) -> bool
        ensures { result ≡ message_fits self.now }
    {
        nodes_fit(self.from, self.to, &self.body) && body_fits(&self.body)
    }
}
