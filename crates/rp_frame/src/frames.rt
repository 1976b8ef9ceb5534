//! The reader of frames.
ghost use Rattle.std.specs.Prelude.{◌≡◌, ◌≤◌, true, length, Ok, IfOk};
ghost use Rattle.proto_data.specs.declared.message.Msg.{Msg as MsgValue};
ghost use Rattle.proto_data.specs.MessageFits.{message_fits};
ghost use Rattle.rp_frame.specs.Spelling.{spelling};
ghost use Rattle.rp_frame.specs.Laws.{IsMessage};
ghost use Rattle.rp_frame.specs.Reading.{Gives, switch, replica, master, runner, sender, addressee, letters, message, all_of};

use crate::fields::{byte_at, whole_at};
use crate::frame_end::FrameEnd;
use crate::kinds::body_at;
use proto_data::Msg;
use rp_base::Node;
use std::alloc::Global;

#[tactic(auto, unfolding(crate::specs::Reading::switch))]
fn switch_at(bytes: &[u8], at: usize) -> Result<(Node, usize), FrameEnd>
    requires { at ≤ length bytes.now }
    ensures read { Gives (λ x. x) result (switch at bytes.now) }
    ensures within { IfOk result (λ x. x.1 ≤ length bytes.now) }
{
    let (b, at) = byte_at(bytes, at, 0, 7)?;
    Ok((Node::Switch(b), at))
}

#[tactic(auto, unfolding(crate::specs::Reading::replica))]
fn replica_at(bytes: &[u8], at: usize) -> Result<(Node, usize), FrameEnd>
    requires { at ≤ length bytes.now }
    ensures read { Gives (λ x. x) result (replica at bytes.now) }
    ensures within { IfOk result (λ x. x.1 ≤ length bytes.now) }
{
    let (b, at) = byte_at(bytes, at, 16, 20)?;
    Ok((Node::Replica(b - 16), at))
}

#[tactic(auto, unfolding(crate::specs::Reading::master))]
fn master_at(bytes: &[u8], at: usize) -> Result<(Node, usize), FrameEnd>
    requires { at ≤ length bytes.now }
    ensures read { Gives (λ x. x) result (master at bytes.now) }
    ensures within { IfOk result (λ x. x.1 ≤ length bytes.now) }
{
    let (_, at) = byte_at(bytes, at, 32, 32)?;
    Ok((Node::Master, at))
}

#[tactic(auto, unfolding(crate::specs::Reading::runner))]
fn runner_at(bytes: &[u8], at: usize) -> Result<(Node, usize), FrameEnd>
    requires { at ≤ length bytes.now }
    ensures read { Gives (λ x. x) result (runner at bytes.now) }
    ensures within { IfOk result (λ x. x.1 ≤ length bytes.now) }
{
    if at < bytes.len() && bytes[at] > 15 {
        replica_at(bytes, at)
    } else {
        switch_at(bytes, at)
    }
}

// Who sends messages of a kind.
#[tactic(auto, unfolding(crate::specs::Reading::sender))]
fn sender_at(bytes: &[u8], at: usize, kind: u8) -> Result<(Node, usize), FrameEnd>
    requires { at ≤ length bytes.now }
    ensures read { Gives (λ x. x) result (sender kind at bytes.now) }
    ensures within { IfOk result (λ x. x.1 ≤ length bytes.now) }
{
    if kind == 1 || kind == 4 || kind == 11 {
        switch_at(bytes, at)
    } else if kind == 10 {
        master_at(bytes, at)
    } else {
        replica_at(bytes, at)
    }
}

// To whom messages of a kind go.
#[tactic(auto, unfolding(crate::specs::Reading::addressee))]
fn addressee_at(bytes: &[u8], at: usize, kind: u8) -> Result<(Node, usize), FrameEnd>
    requires { at ≤ length bytes.now }
    ensures read { Gives (λ x. x) result (addressee kind at bytes.now) }
    ensures within { IfOk result (λ x. x.1 ≤ length bytes.now) }
{
    if kind == 2 || kind == 3 || kind == 5 || kind == 6 {
        switch_at(bytes, at)
    } else if kind == 10 {
        runner_at(bytes, at)
    } else {
        replica_at(bytes, at)
    }
}

#[tactic(auto, unfolding(crate::specs::Reading::letters))]
fn letters_at(bytes: &[u8], at: usize) -> Result<(&[u8], usize), FrameEnd>
    requires { at ≤ length bytes.now }
    ensures read { Gives (λ x. (x.0.now, x.1)) result (letters at bytes.now) }
    ensures within { IfOk result (λ x. x.1 ≤ length bytes.now) }
{
    let (b, next) = whole_at(bytes, at, 2)?;
    if b == [0x52, 0x50].as_slice() {
        Ok((b, next))
    } else {
        Err(FrameEnd::BadFrame { at: at as u64 })
    }
}

// A message at the front of the bytes, and its length.
#[tactic(auto, unfolding(crate::specs::Reading::message))]
fn message_of(alloc: Global, bytes: &[u8]) -> Result<(Msg, usize), FrameEnd>
    ensures { Gives (λ x. x) result (message bytes.now) }
{
    let (_, at) = letters_at(bytes, 0)?;
    let (_, at) = byte_at(bytes, at, 1, 1)?;
    let (kind, at) = byte_at(bytes, at, 1, 11)?;
    let (from, at) = sender_at(bytes, at, kind)?;
    let (to, at) = addressee_at(bytes, at, kind)?;
    let (body, at) = body_at(alloc, bytes, at, kind)?;
    Ok((Msg { from, to, body }, at))
}

// The message that all of the bytes spell.
#[tactic(auto, unfolding(crate::specs::Reading::all_of))]
fn all(alloc: Global, bytes: &[u8]) -> Result<Msg, FrameEnd>
    ensures { Gives (λ m. m) result (all_of bytes.now) }
{
    let (m, at) = message_of(alloc, bytes)?;
    if at != bytes.len() {
        return Err(FrameEnd::BadFrame { at: at as u64 });
    }
    Ok(m)
}

/// The message that all of the bytes spell.
///
/// # Errors
/// `FrameEnd::BadFrame` with the place of the first bad field exactly where they spell none; `FrameEnd::NoMemory`.
pub fn decode(alloc: Global, bytes: &[u8]) -> Result<Msg, FrameEnd>
    ensures found { IfOk result (λ m. (message_fits m ≡ true) × (bytes.now ≡ spelling m)) }
    ensures only { (m : MsgValue) → IsMessage m → bytes.now ≡ spelling m → Gives (λ x. x) result (Ok m) }
    ensures exact { Gives (λ m. m) result (all_of bytes.now) }
{
    all(alloc, bytes)
}
