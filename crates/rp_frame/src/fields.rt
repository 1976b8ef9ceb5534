//! The fields of frames.
ghost use Rattle.std.specs.Prelude.{◌≡◌, ◌≤◌, ◌<◌, ◌+◌, ◌^◌, length, IfOk};
ghost use Rattle.rp_frame.specs.Reading.{Gives, whole, number, value, short, byte};

use crate::frame_end::FrameEnd;

// So many bytes.
#[tactic(auto, unfolding(crate::specs::Reading::whole))]
pub fn whole_at(bytes: &[u8], at: usize, n: usize) -> Result<(&[u8], usize), FrameEnd>
    requires { at ≤ length bytes.now }
    ensures read { Gives (λ x. (x.0.now, x.1)) result (whole n at bytes.now) }
    ensures within { IfOk result (λ x. x.1 ≤ length bytes.now) }
    ensures size { IfOk result (λ x. length x.0.now ≡ n) }
{
    let (_, rest) = bytes.split_at(at);
    if rest.len() < n {
        return Err(FrameEnd::BadFrame { at: at as u64 });
    }
    let (front, _) = rest.split_at(n);
    Ok((front, at + n))
}

// A number of the protocol.
#[tactic(auto, unfolding(crate::specs::Reading::number))]
pub fn number_at(bytes: &[u8], at: usize) -> Result<(u64, usize), FrameEnd>
    requires { at ≤ length bytes.now }
    ensures read { Gives (λ x. x) result (number at bytes.now) }
    ensures within { IfOk result (λ x. x.1 ≤ length bytes.now) }
{
    let (b, at) = whole_at(bytes, at, 4)?;
    Ok((u32::from_be_bytes([b[0], b[1], b[2], b[3]]) as u64, at))
}

// The value of a cell.
#[tactic(auto, unfolding(crate::specs::Reading::value))]
pub fn value_at(bytes: &[u8], at: usize) -> Result<(u64, usize), FrameEnd>
    requires { at ≤ length bytes.now }
    ensures read { Gives (λ x. x) result (value at bytes.now) }
    ensures within { IfOk result (λ x. x.1 ≤ length bytes.now) }
{
    let (b, at) = whole_at(bytes, at, 8)?;
    let v = u64::from_be_bytes([b[0], b[1], b[2], b[3], b[4], b[5], b[6], b[7]]);
    Ok((v, at))
}

// A port, a length, a count or the number of a cell, between two bounds.
#[tactic(auto, unfolding(crate::specs::Reading::short))]
pub fn short_at(bytes: &[u8], at: usize, low: u16, high: u16) -> Result<(u16, usize), FrameEnd>
    requires { at ≤ length bytes.now }
    ensures read { Gives (λ x. x) result (short low high at bytes.now) }
    ensures within { IfOk result (λ x. x.1 ≤ length bytes.now) }
    ensures low { IfOk result (λ x. low ≤ x.0) }
    ensures high { IfOk result (λ x. x.0 ≤ high) }
{
    let (b, next) = whole_at(bytes, at, 2)?;
    let n = u16::from_be_bytes([b[0], b[1]]);
    if low <= n && n <= high {
        Ok((n, next))
    } else {
        Err(FrameEnd::BadFrame { at: at as u64 })
    }
}

// A byte between two bounds.
#[tactic(auto, unfolding(crate::specs::Reading::byte))]
pub fn byte_at(bytes: &[u8], at: usize, low: u8, high: u8) -> Result<(u8, usize), FrameEnd>
    requires { at ≤ length bytes.now }
    ensures read { Gives (λ x. x) result (byte low high at bytes.now) }
    ensures within { IfOk result (λ x. x.1 ≤ length bytes.now) }
    ensures low { IfOk result (λ x. low ≤ x.0) }
    ensures high { IfOk result (λ x. x.0 ≤ high) }
{
    let (b, next) = whole_at(bytes, at, 1)?;
    let n = b[0];
    if low <= n && n <= high {
        Ok((n, next))
    } else {
        Err(FrameEnd::BadFrame { at: at as u64 })
    }
}
