//! The application that counts packets.
ghost use Rattle.std.specs.Prelude.{◌≡◌, Ok, IfOk};
ghost use Rattle.rp_app.specs.Application.{counting, counting_key, counted};
ghost use Rattle.rp_app.specs.Counting.{counting_promised};

use crate::app::App;
use crate::delta::Delta;
use rp_base::{Bytes, Cells, Key, NoMemory, Output, Packet};
use std::alloc::Global;

/// Counts the packets of each flow in one cell. A flow is a packet's first byte; an empty packet has none and no output.
/// A packet whose second byte is 3f only reads the count, any other adds 1 modulo 2^64.
/// The output goes to the packet's own port: the count as 8 bytes, big endian, and the packet's bytes; past 1,500 bytes there is none.
#[derive(Drop)]
pub struct CountApp {
    pub alloc: Global,
}

impl App for CountApp {
    ghost meaning = { λ _. counting };

    ghost promised = { λ _. counting_promised };

    fn cells(&self) -> u16 {
        1
    }

    // Takes no memory.
    fn key_of(&self, p: &Packet) -> Result<Option<Key>, NoMemory>
        ensures { result ≡ Ok (counting_key p.now.bytes) }
    {
        Ok(match p.bytes.as_slice() {
            [] => None,
            [first, ..] => Key::of(&[*first]),
        })
    }

    fn step(
        &self,
        cells: &Cells,
        p: &Packet,
        delta: &mut Delta,
    ) -> Result<Option<Output>, NoMemory> {
        let bytes = p.bytes.as_slice();
        if bytes.is_empty() {
            return Ok(None);
        }
        let count = cells.as_slice()[0];
        if bytes.len() > 1 && bytes[1] == b'?' {
            return counted(self.alloc, p, count);
        }
        let count = count.wrapping_add(1);
        let out = counted(self.alloc, p, count)?;
        delta.set(0, count)?;
        Ok(out)
    }
}

// The count in front of the packet.
fn counted(alloc: Global, p: &Packet, count: u64) -> Result<Option<Output>, NoMemory>
    ensures { IfOk result (λ out. out ≡ counted p.now count) }
{
    if p.bytes.len() > 1492 {
        return Ok(None);
    }
    let mut bytes = Bytes::new(alloc);
    bytes.append(&count.to_be_bytes())?;
    bytes.append(p.bytes.as_slice())?;
    Ok(Some(Output {
        mark: p.mark,
        port: p.port,
        bytes,
    }))
}
