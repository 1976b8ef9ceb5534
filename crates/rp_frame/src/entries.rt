//! Entries of the book, and what echoes stand for.
ghost use Rattle.std.specs.Prelude.{◌≡◌, ◌≤◌, length, IfOk};
ghost use Rattle.rp_frame.specs.Reading.{Gives, grant_entry, put_entry, snap_entry, entry, ask_echo, put_echo, echoed};

use crate::fields::{byte_at, number_at};
use crate::frame_end::FrameEnd;
use crate::lists::{cells_at, delta_at};
use crate::parts::key_at;
use proto_data::{Echoed, Entry};
use std::alloc::Global;

#[tactic(auto, unfolding(crate::specs::Reading::grant_entry))]
pub fn grant_entry_at(bytes: &[u8], at: usize) -> Result<(Entry, usize), FrameEnd>
    requires { at ≤ length bytes.now }
    ensures read { Gives (λ x. x) result (grant_entry at bytes.now) }
    ensures within { IfOk result (λ x. x.1 ≤ length bytes.now) }
{
    let (key, at) = key_at(bytes, at)?;
    let (epoch, at) = number_at(bytes, at)?;
    let (switch, at) = byte_at(bytes, at, 0, 7)?;
    let (inc, at) = number_at(bytes, at)?;
    let (nonce, at) = number_at(bytes, at)?;
    let entry = Entry::Grant {
        key,
        epoch,
        switch,
        inc,
        nonce,
    };
    Ok((entry, at))
}

#[tactic(auto, unfolding(crate::specs::Reading::put_entry))]
pub fn put_entry_at(alloc: Global, bytes: &[u8], at: usize) -> Result<(Entry, usize), FrameEnd>
    requires { at ≤ length bytes.now }
    ensures read { Gives (λ x. x) result (put_entry at bytes.now) }
    ensures within { IfOk result (λ x. x.1 ≤ length bytes.now) }
{
    let (key, at) = key_at(bytes, at)?;
    let (epoch, at) = number_at(bytes, at)?;
    let (number, at) = number_at(bytes, at)?;
    let (delta, at) = delta_at(alloc, bytes, at)?;
    let entry = Entry::Put {
        key,
        epoch,
        number,
        delta,
    };
    Ok((entry, at))
}

#[tactic(auto, unfolding(crate::specs::Reading::snap_entry))]
pub fn snap_entry_at(alloc: Global, bytes: &[u8], at: usize) -> Result<(Entry, usize), FrameEnd>
    requires { at ≤ length bytes.now }
    ensures read { Gives (λ x. x) result (snap_entry at bytes.now) }
    ensures within { IfOk result (λ x. x.1 ≤ length bytes.now) }
{
    let (key, at) = key_at(bytes, at)?;
    let (epoch, at) = number_at(bytes, at)?;
    let (round, at) = number_at(bytes, at)?;
    let (cells, at) = cells_at(alloc, bytes, at)?;
    let entry = Entry::Snap {
        key,
        epoch,
        round,
        cells,
    };
    Ok((entry, at))
}

#[tactic(auto, unfolding(crate::specs::Reading::entry))]
pub fn entry_at(alloc: Global, bytes: &[u8], at: usize) -> Result<(Entry, usize), FrameEnd>
    requires { at ≤ length bytes.now }
    ensures read { Gives (λ x. x) result (entry at bytes.now) }
    ensures within { IfOk result (λ x. x.1 ≤ length bytes.now) }
{
    let (sort, at) = byte_at(bytes, at, 1, 3)?;
    if sort == 1 {
        grant_entry_at(bytes, at)
    } else if sort == 2 {
        put_entry_at(alloc, bytes, at)
    } else {
        snap_entry_at(alloc, bytes, at)
    }
}

#[tactic(auto, unfolding(crate::specs::Reading::ask_echo))]
pub fn ask_echo_at(bytes: &[u8], at: usize) -> Result<(Echoed, usize), FrameEnd>
    requires { at ≤ length bytes.now }
    ensures read { Gives (λ x. x) result (ask_echo at bytes.now) }
    ensures within { IfOk result (λ x. x.1 ≤ length bytes.now) }
{
    let (switch, at) = byte_at(bytes, at, 0, 7)?;
    let (inc, at) = number_at(bytes, at)?;
    let (nonce, at) = number_at(bytes, at)?;
    let (key, at) = key_at(bytes, at)?;
    let of = Echoed::Ask {
        switch,
        inc,
        nonce,
        key,
    };
    Ok((of, at))
}

#[tactic(auto, unfolding(crate::specs::Reading::put_echo))]
pub fn put_echo_at(bytes: &[u8], at: usize) -> Result<(Echoed, usize), FrameEnd>
    requires { at ≤ length bytes.now }
    ensures read { Gives (λ x. x) result (put_echo at bytes.now) }
    ensures within { IfOk result (λ x. x.1 ≤ length bytes.now) }
{
    let (switch, at) = byte_at(bytes, at, 0, 7)?;
    let (epoch, at) = number_at(bytes, at)?;
    let (number, at) = number_at(bytes, at)?;
    let (key, at) = key_at(bytes, at)?;
    let of = Echoed::Put {
        switch,
        epoch,
        number,
        key,
    };
    Ok((of, at))
}

#[tactic(auto, unfolding(crate::specs::Reading::echoed))]
pub fn echoed_at(bytes: &[u8], at: usize) -> Result<(Echoed, usize), FrameEnd>
    requires { at ≤ length bytes.now }
    ensures read { Gives (λ x. x) result (echoed at bytes.now) }
    ensures within { IfOk result (λ x. x.1 ≤ length bytes.now) }
{
    let (sort, at) = byte_at(bytes, at, 1, 2)?;
    if sort == 1 {
        ask_echo_at(bytes, at)
    } else {
        put_echo_at(bytes, at)
    }
}
