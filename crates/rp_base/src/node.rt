//! Nodes and packets.
ghost use Rattle.std.specs.Prelude.{◌≡◌, IfOk};

use crate::bytes::Bytes;
use crate::error::NoMemory;

/// A node of a run.
#[derive(Clone, Copy, Debug, PartialEq, Eq)]
pub enum Node {
    /// A switch, by its number from 0.
    Switch(u8),
    /// A replica of the store, by its number from 0.
    Replica(u8),
    /// The master, which announces configurations.
    Master,
}

/// A packet that is fed in. Its mark is the number of the event that fed it.
#[derive(Debug, Drop)]
pub struct Packet {
    pub mark: u64,
    pub port: u16,
    pub bytes: Bytes,
}

impl Packet {
    /// An equal packet.
    ///
    /// # Errors
    /// `NoMemory`.
    pub fn copy(&self) -> Result<Packet, NoMemory>
        ensures { IfOk result (λ copied. copied ≡ self.now) }
    {
        Ok(Packet {
            mark: self.mark,
            port: self.port,
            bytes: self.bytes.copy()?,
        })
    }
}

/// What a switch sends out for the packet of a mark.
#[derive(Debug, Drop)]
pub struct Output {
    pub mark: u64,
    pub port: u16,
    pub bytes: Bytes,
}

impl Output {
    /// An equal output.
    ///
    /// # Errors
    /// `NoMemory`.
    pub fn copy(&self) -> Result<Output, NoMemory>
        ensures { IfOk result (λ copied. copied ≡ self.now) }
    {
        Ok(Output {
            mark: self.mark,
            port: self.port,
            bytes: self.bytes.copy()?,
        })
    }
}
