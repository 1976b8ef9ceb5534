//! Lists behind their count.
ghost use Rattle.std.specs.Prelude.{◌≡◌, ◌≤◌, ◌+◌, length, IfOk};
ghost use Rattle.rp_frame.specs.Reading.{Gives, members, value, member, byte, cells, delta, chain};

use crate::fields::{byte_at, short_at, value_at};
use crate::frame_end::FrameEnd;
use crate::parts::member_at;
use proto_data::{Chain, Chunk};
use rp_app::Delta;
use rp_base::Cells;
use std::alloc::Global;

#[tactic(auto, unfolding(crate::specs::Reading::cells))]
pub fn cells_at(alloc: Global, bytes: &[u8], at: usize) -> Result<(Cells, usize), FrameEnd>
    requires { at ≤ length bytes.now }
    ensures read { Gives (λ x. x) result (cells 256 at bytes.now) }
    ensures within { IfOk result (λ x. x.1 ≤ length bytes.now) }
{
    let (n, at) = short_at(bytes, at, 0, 256)?;
    values_at(alloc, bytes, at, n)
}

fn values_at(alloc: Global, bytes: &[u8], at: usize, n: u16) -> Result<(Cells, usize), FrameEnd>
    requires { at ≤ length bytes.now }
    ensures read { Gives (λ x. x) result (members (λ low. value) (λ v. 0) 0 n at bytes.now) }
    ensures within { IfOk result (λ x. x.1 ≤ length bytes.now) }
{
    let mut cells = Cells::new(alloc);
    let mut place = at;
    for _ in 0..n {
        let (v, next) = value_at(bytes, place)?;
        cells.push(v)?;
        place = next;
    }
    Ok((cells, place))
}

#[tactic(auto, unfolding(crate::specs::Reading::cells))]
pub fn chunk_at(bytes: &[u8], at: usize) -> Result<(Chunk, usize), FrameEnd>
    requires { at ≤ length bytes.now }
    ensures read { Gives (λ x. x) result (cells 32 at bytes.now) }
{
    let (n, at) = short_at(bytes, at, 0, 32)?;
    few_values_at(bytes, at, n)
}

fn few_values_at(bytes: &[u8], at: usize, n: u16) -> Result<(Chunk, usize), FrameEnd>
    requires place { at ≤ length bytes.now }
    requires few { n ≤ 32 }
    ensures { Gives (λ x. x) result (members (λ low. value) (λ v. 0) 0 n at bytes.now) }
{
    let mut chunk = Chunk::new();
    let mut place = at;
    for _ in 0..n {
        let (v, next) = value_at(bytes, place)?;
        chunk.push(v);
        place = next;
    }
    Ok((chunk, place))
}

#[tactic(auto, unfolding(crate::specs::Reading::delta))]
pub fn delta_at(alloc: Global, bytes: &[u8], at: usize) -> Result<(Delta, usize), FrameEnd>
    requires { at ≤ length bytes.now }
    ensures read { Gives (λ x. x) result (delta at bytes.now) }
    ensures within { IfOk result (λ x. x.1 ≤ length bytes.now) }
{
    let (n, at) = short_at(bytes, at, 0, 256)?;
    written_at(alloc, bytes, at, n)
}

fn written_at(alloc: Global, bytes: &[u8], at: usize, n: u16) -> Result<(Delta, usize), FrameEnd>
    requires { at ≤ length bytes.now }
    ensures read { Gives (λ x. x) result (members member (λ d. d.0 + 1) 0 n at bytes.now) }
    ensures within { IfOk result (λ x. x.1 ≤ length bytes.now) }
{
    let mut delta = Delta::new(alloc);
    let mut place = at;
    let mut low = 0;
    for _ in 0..n {
        let (cell, v, next) = member_at(bytes, place, low)?;
        delta.set(cell, v)?;
        low = cell + 1;
        place = next;
    }
    Ok((delta, place))
}

#[tactic(auto, unfolding(crate::specs::Reading::chain))]
pub fn chain_at(bytes: &[u8], at: usize) -> Result<(Chain, usize), FrameEnd>
    requires { at ≤ length bytes.now }
    ensures read { Gives (λ x. x) result (chain at bytes.now) }
{
    let (n, at) = byte_at(bytes, at, 1, 5)?;
    replicas_at(bytes, at, n)
}

fn replicas_at(bytes: &[u8], at: usize, n: u8) -> Result<(Chain, usize), FrameEnd>
    requires place { at ≤ length bytes.now }
    requires few { n ≤ 5 }
    ensures { Gives (λ x. x) result (members (λ low. byte low 4) (λ b. b + 1) 0 n at bytes.now) }
{
    let mut chain = Chain::new();
    let mut place = at;
    let mut low = 0;
    for _ in 0..n {
        let (b, next) = byte_at(bytes, place, low, 4)?;
        chain.push(b);
        low = b + 1;
        place = next;
    }
    Ok((chain, place))
}
