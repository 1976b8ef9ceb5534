//! The fields of each kind of message.
ghost use Rattle.std.specs.Prelude.{◌≡◌, ◌≤◌, length, IfOk};
ghost use Rattle.rp_frame.specs.Reading.{Gives, ask, grant, busy, put, ack, deny, forward, have, echo, config, snap, body};

use crate::entries::{echoed_at, entry_at};
use crate::fields::{byte_at, number_at};
use crate::frame_end::FrameEnd;
use crate::lists::{cells_at, chain_at, chunk_at, delta_at};
use crate::parts::{key_at, load_at, mark_at};
use proto_data::{Body, Config};
use std::alloc::Global;

#[tactic(auto, unfolding(crate::specs::Reading::ask))]
fn ask_at(alloc: Global, bytes: &[u8], at: usize) -> Result<(Body, usize), FrameEnd>
    requires { at ≤ length bytes.now }
    ensures read { Gives (λ x. x) result (ask at bytes.now) }
{
    let (inc, at) = number_at(bytes, at)?;
    let (nonce, at) = number_at(bytes, at)?;
    let (key, at) = key_at(bytes, at)?;
    let (load, at) = load_at(alloc, bytes, at)?;
    let body = Body::Ask {
        inc,
        nonce,
        key,
        load,
    };
    Ok((body, at))
}

#[tactic(auto, unfolding(crate::specs::Reading::grant))]
fn grant_at(alloc: Global, bytes: &[u8], at: usize) -> Result<(Body, usize), FrameEnd>
    requires { at ≤ length bytes.now }
    ensures read { Gives (λ x. x) result (grant at bytes.now) }
{
    let (inc, at) = number_at(bytes, at)?;
    let (nonce, at) = number_at(bytes, at)?;
    let (epoch, at) = number_at(bytes, at)?;
    let (key, at) = key_at(bytes, at)?;
    let (cells, at) = cells_at(alloc, bytes, at)?;
    let (load, at) = load_at(alloc, bytes, at)?;
    let body = Body::Grant {
        inc,
        nonce,
        epoch,
        key,
        cells,
        load,
    };
    Ok((body, at))
}

#[tactic(auto, unfolding(crate::specs::Reading::busy))]
fn busy_at(bytes: &[u8], at: usize) -> Result<(Body, usize), FrameEnd>
    requires { at ≤ length bytes.now }
    ensures read { Gives (λ x. x) result (busy at bytes.now) }
{
    let (inc, at) = number_at(bytes, at)?;
    let (nonce, at) = number_at(bytes, at)?;
    let (key, at) = key_at(bytes, at)?;
    let (mark, at) = mark_at(bytes, at)?;
    let body = Body::Busy {
        inc,
        nonce,
        key,
        mark,
    };
    Ok((body, at))
}

#[tactic(auto, unfolding(crate::specs::Reading::put))]
fn put_at(alloc: Global, bytes: &[u8], at: usize) -> Result<(Body, usize), FrameEnd>
    requires { at ≤ length bytes.now }
    ensures read { Gives (λ x. x) result (put at bytes.now) }
{
    let (inc, at) = number_at(bytes, at)?;
    let (epoch, at) = number_at(bytes, at)?;
    let (number, at) = number_at(bytes, at)?;
    let (key, at) = key_at(bytes, at)?;
    let (delta, at) = delta_at(alloc, bytes, at)?;
    let (load, at) = load_at(alloc, bytes, at)?;
    let body = Body::Put {
        inc,
        epoch,
        number,
        key,
        delta,
        load,
    };
    Ok((body, at))
}

#[tactic(auto, unfolding(crate::specs::Reading::ack))]
fn ack_at(alloc: Global, bytes: &[u8], at: usize) -> Result<(Body, usize), FrameEnd>
    requires { at ≤ length bytes.now }
    ensures read { Gives (λ x. x) result (ack at bytes.now) }
{
    let (inc, at) = number_at(bytes, at)?;
    let (epoch, at) = number_at(bytes, at)?;
    let (upto, at) = number_at(bytes, at)?;
    let (key, at) = key_at(bytes, at)?;
    let (load, at) = load_at(alloc, bytes, at)?;
    let body = Body::Ack {
        inc,
        epoch,
        upto,
        key,
        load,
    };
    Ok((body, at))
}

#[tactic(auto, unfolding(crate::specs::Reading::deny))]
fn deny_at(bytes: &[u8], at: usize) -> Result<(Body, usize), FrameEnd>
    requires { at ≤ length bytes.now }
    ensures read { Gives (λ x. x) result (deny at bytes.now) }
{
    let (inc, at) = number_at(bytes, at)?;
    let (epoch, at) = number_at(bytes, at)?;
    let (key, at) = key_at(bytes, at)?;
    let body = Body::Deny { inc, epoch, key };
    Ok((body, at))
}

#[tactic(auto, unfolding(crate::specs::Reading::forward))]
fn forward_at(alloc: Global, bytes: &[u8], at: usize) -> Result<(Body, usize), FrameEnd>
    requires { at ≤ length bytes.now }
    ensures read { Gives (λ x. x) result (forward at bytes.now) }
{
    let (config, at) = number_at(bytes, at)?;
    let (index, at) = number_at(bytes, at)?;
    let (entry, at) = entry_at(alloc, bytes, at)?;
    let (load, at) = load_at(alloc, bytes, at)?;
    let body = Body::Forward {
        config,
        index,
        entry,
        load,
    };
    Ok((body, at))
}

#[tactic(auto, unfolding(crate::specs::Reading::have))]
fn have_at(bytes: &[u8], at: usize) -> Result<(Body, usize), FrameEnd>
    requires { at ≤ length bytes.now }
    ensures read { Gives (λ x. x) result (have at bytes.now) }
{
    let (index, at) = number_at(bytes, at)?;
    let body = Body::Have { index };
    Ok((body, at))
}

#[tactic(auto, unfolding(crate::specs::Reading::echo))]
fn echo_at(alloc: Global, bytes: &[u8], at: usize) -> Result<(Body, usize), FrameEnd>
    requires { at ≤ length bytes.now }
    ensures read { Gives (λ x. x) result (echo at bytes.now) }
{
    let (of, at) = echoed_at(bytes, at)?;
    let (load, at) = load_at(alloc, bytes, at)?;
    let body = Body::Echo { of, load };
    Ok((body, at))
}

#[tactic(auto, unfolding(crate::specs::Reading::config))]
fn config_at(bytes: &[u8], at: usize) -> Result<(Body, usize), FrameEnd>
    requires { at ≤ length bytes.now }
    ensures read { Gives (λ x. x) result (config at bytes.now) }
{
    let (number, at) = number_at(bytes, at)?;
    let (chain, at) = chain_at(bytes, at)?;
    let body = Body::Config(Config { number, chain });
    Ok((body, at))
}

#[tactic(auto, unfolding(crate::specs::Reading::snap))]
fn snap_at(bytes: &[u8], at: usize) -> Result<(Body, usize), FrameEnd>
    requires { at ≤ length bytes.now }
    ensures read { Gives (λ x. x) result (snap at bytes.now) }
{
    let (inc, at) = number_at(bytes, at)?;
    let (epoch, at) = number_at(bytes, at)?;
    let (round, at) = number_at(bytes, at)?;
    let (key, at) = key_at(bytes, at)?;
    let (chunk, at) = byte_at(bytes, at, 0, 7)?;
    let (chunks, at) = byte_at(bytes, at, chunk + 1, 8)?;
    let (cells, at) = chunk_at(bytes, at)?;
    let body = Body::Snap {
        inc,
        epoch,
        round,
        key,
        chunk,
        chunks,
        cells,
    };
    Ok((body, at))
}

// The fields of a kind, by its byte, which is 1 to 11.
#[tactic(auto, unfolding(crate::specs::Reading::body))]
pub fn body_at(alloc: Global, bytes: &[u8], at: usize, kind: u8) -> Result<(Body, usize), FrameEnd>
    requires { at ≤ length bytes.now }
    ensures { Gives (λ x. x) result (body kind at bytes.now) }
{
    match kind {
        1 => ask_at(alloc, bytes, at),
        2 => grant_at(alloc, bytes, at),
        3 => busy_at(bytes, at),
        4 => put_at(alloc, bytes, at),
        5 => ack_at(alloc, bytes, at),
        6 => deny_at(bytes, at),
        7 => forward_at(alloc, bytes, at),
        8 => have_at(bytes, at),
        9 => echo_at(alloc, bytes, at),
        10 => config_at(bytes, at),
        _ => snap_at(bytes, at),
    }
}
