//! The terms of leases.

/// How updates reach the store.
#[derive(Clone, Copy, Debug, PartialEq, Eq)]
pub enum Mode {
    /// An update travels with its output, which comes back with the reply.
    Strict,
    /// Outputs leave at once, and what the last snapshot lacks is at most this old: 1 to 1,000,000.
    Snapshot(u64),
}

/// The terms of the leases.
#[derive(Clone, Copy, Debug, PartialEq, Eq)]
pub struct Terms {
    /// How long a lease lasts on the clock of a switch: 1 to 1,000,000.
    pub t_switch: u64,
    /// How long the store waits, on the clock of a replica, before it gives a flow to another switch: 1 to 1,000,000.
    pub t_store: u64,
    /// How far clocks may differ, in thousandths: 0 to 1,000.
    pub ratio: u64,
    pub mode: Mode,
}
