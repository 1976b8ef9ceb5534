//! The parts of frames that several kinds have.
ghost use Rattle.std.specs.Prelude.{◌≡◌, ◌≤◌, length, IfOk};
ghost use Rattle.rp_frame.specs.Reading.{Gives, key, member, carried, load, mark};

use crate::fields::{byte_at, number_at, short_at, value_at, whole_at};
use crate::frame_end::FrameEnd;
use proto_data::Carried;
use rp_base::{Bytes, Key};
use std::alloc::Global;

#[tactic(auto, unfolding(crate::specs::Reading::key))]
pub fn key_at(bytes: &[u8], at: usize) -> Result<(Key, usize), FrameEnd>
    requires { at ≤ length bytes.now }
    ensures read { Gives (λ x. x) result (key at bytes.now) }
    ensures within { IfOk result (λ x. x.1 ≤ length bytes.now) }
{
    let (n, at) = byte_at(bytes, at, 1, 16)?;
    let (text, next) = whole_at(bytes, at, n as usize)?;
    Ok((Key::of(text).unwrap(), next))
}

#[tactic(auto, unfolding(crate::specs::Reading::carried))]
pub fn carried_at(alloc: Global, bytes: &[u8], at: usize) -> Result<(Carried, usize), FrameEnd>
    requires { at ≤ length bytes.now }
    ensures read { Gives (λ x. x) result (carried at bytes.now) }
    ensures within { IfOk result (λ x. x.1 ≤ length bytes.now) }
{
    let (mark, at) = number_at(bytes, at)?;
    let (port, at) = short_at(bytes, at, 0, u16::MAX)?;
    let (n, at) = short_at(bytes, at, 0, 1500)?;
    let (text, at) = whole_at(bytes, at, n as usize)?;
    let mut owned = Bytes::new(alloc);
    owned.append(text)?;
    let carried = Carried {
        mark,
        port,
        bytes: owned,
    };
    Ok((carried, at))
}

#[tactic(auto, unfolding(crate::specs::Reading::load))]
pub fn load_at(alloc: Global, bytes: &[u8], at: usize) -> Result<(Option<Carried>, usize), FrameEnd>
    requires { at ≤ length bytes.now }
    ensures read { Gives (λ x. x) result (load at bytes.now) }
    ensures within { IfOk result (λ x. x.1 ≤ length bytes.now) }
{
    let (flag, at) = byte_at(bytes, at, 0, 1)?;
    if flag == 0 {
        return Ok((None, at));
    }
    let (carried, at) = carried_at(alloc, bytes, at)?;
    Ok((Some(carried), at))
}

#[tactic(auto, unfolding(crate::specs::Reading::mark))]
pub fn mark_at(bytes: &[u8], at: usize) -> Result<(Option<u64>, usize), FrameEnd>
    requires { at ≤ length bytes.now }
    ensures read { Gives (λ x. x) result (mark at bytes.now) }
    ensures within { IfOk result (λ x. x.1 ≤ length bytes.now) }
{
    let (flag, at) = byte_at(bytes, at, 0, 1)?;
    if flag == 0 {
        return Ok((None, at));
    }
    let (mark, at) = number_at(bytes, at)?;
    Ok((Some(mark), at))
}

#[tactic(auto, unfolding(crate::specs::Reading::member))]
pub fn member_at(bytes: &[u8], at: usize, low: u16) -> Result<(u16, u64, usize), FrameEnd>
    requires { at ≤ length bytes.now }
    ensures read { Gives (λ x. ((x.0, x.1), x.2)) result (member low at bytes.now) }
    ensures within { IfOk result (λ x. x.2 ≤ length bytes.now) }
    ensures low { IfOk result (λ x. low ≤ x.0) }
    ensures high { IfOk result (λ x. x.0 ≤ 255) }
{
    let (cell, at) = short_at(bytes, at, low, 255)?;
    let (v, at) = value_at(bytes, at)?;
    Ok((cell, v, at))
}
