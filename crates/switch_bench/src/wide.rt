//! The counting application over more than 256 flows.
ghost use Rattle.std.specs.Prelude.{◌≡◌, Ok};
ghost use Rattle.switch_bench.specs.Wide.{counting_wide, wide_key, wide_promised};

use rp_app::{App, CountApp, Delta};
use rp_base::{Cells, Key, NoMemory, Output, Packet};

/// Counts the packets of each flow as `CountApp` does; a flow is a packet's first four bytes.
#[derive(Drop)]
pub(crate) struct WideApp {
    pub(crate) count: CountApp,
}

impl App for WideApp {
    ghost meaning = { λ _. counting_wide };

    ghost promised = { λ _. wide_promised };

    fn cells(&self) -> u16 {
        self.count.cells()
    }

    // Takes no memory.
    fn key_of(&self, p: &Packet) -> Result<Option<Key>, NoMemory>
        ensures { result ≡ Ok (wide_key p.now.bytes) }
    {
        let bytes = p.bytes.as_slice();
        if bytes.is_empty() {
            return Ok(None);
        }
        Ok(Key::of(&bytes[..bytes.len().min(4)]))
    }

    fn step(
        &self,
        cells: &Cells,
        p: &Packet,
        delta: &mut Delta,
    ) -> Result<Option<Output>, NoMemory> {
        self.count.step(cells, p, delta)
    }
}
