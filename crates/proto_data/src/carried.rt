//! Packets and outputs as they ride on messages, there and back.
ghost use Rattle.std.specs.Prelude.{◌≡◌, IfOk};
ghost use Rattle.proto_data.specs.Carrying.{carried_output, carried_packet, output_of, packet_of};

use crate::message::Carried;
use rp_base::{NoMemory, Output, Packet};

impl Carried {
    /// A packet as it rides on a message.
    ///
    /// # Errors
    /// `NoMemory`.
    pub fn of_packet(packet: &Packet) -> Result<Carried, NoMemory>
        ensures { IfOk result (λ carried. carried ≡ carried_packet packet.now) }
    {
        Ok(Carried {
            mark: packet.mark,
            port: packet.port,
            bytes: packet.bytes.copy()?,
        })
    }

    /// An output as it rides on a message.
    pub fn of_output(output: Output) -> Carried
        ensures { result ≡ carried_output output }
    {
        Carried {
            mark: output.mark,
            port: output.port,
            bytes: output.bytes,
        }
    }

    /// The packet that rides on a message.
    ///
    /// # Errors
    /// `NoMemory`.
    pub fn packet(&self) -> Result<Packet, NoMemory>
        ensures { IfOk result (λ packet. packet ≡ packet_of self.now) }
    {
        Ok(Packet {
            mark: self.mark,
            port: self.port,
            bytes: self.bytes.copy()?,
        })
    }

    /// The output that rides on a message.
    ///
    /// # Errors
    /// `NoMemory`.
    pub fn output(&self) -> Result<Output, NoMemory>
        ensures { IfOk result (λ output. output ≡ output_of self.now) }
    {
        Ok(Output {
            mark: self.mark,
            port: self.port,
            bytes: self.bytes.copy()?,
        })
    }

    /// An equal load.
    ///
    /// # Errors
    /// `NoMemory`.
    pub fn copy(&self) -> Result<Carried, NoMemory>
        ensures { IfOk result (λ copied. copied ≡ self.now) }
    {
        Ok(Carried {
            mark: self.mark,
            port: self.port,
            bytes: self.bytes.copy()?,
        })
    }
}
