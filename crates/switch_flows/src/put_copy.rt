//! A copy of a Put, as it leaves the buffer for a message.

use rp_app::Delta;
use rp_base::Key;
use std::marker::Model;

/// A Put that waits for its Ack, without its output.
#[derive(Debug, Drop)]
pub struct PutCopy {
    /// The flow's key.
    pub key: Key,
    /// The Put's number in its epoch.
    pub number: u64,
    /// The cells that it writes.
    pub delta: Delta,
    /// The moment of its first sending.
    pub first: u64,
    /// The moment of its last sending.
    pub sent: u64,
}

impl Model for PutCopy {
    ghost use Rattle.proto_model.specs.SwitchState.{Copy};

    ghost Value = { Copy };

    ghost view = { λ c. record { key = c.key; number = c.number; delta = c.delta; first = c.first; sent = c.sent } };
}
