//! A copy of a Put.

use rp_app::Delta;

/// A Put without its output, as it is sent again until the store has it.
#[derive(Drop)]
pub struct Kept {
    /// The flow's slot, from 0.
    pub slot: u32,
    /// The Put's number in its epoch.
    pub number: u64,
    /// The cells that it writes.
    pub delta: Delta,
    /// The moment of its first sending.
    pub first: u64,
    /// The moment of its last sending.
    pub sent: u64,
}
