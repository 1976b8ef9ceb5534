//! What a switch that never fails runs: an application, or anything else that makes outputs and cells of packets as one does.
ghost use Rattle.std.specs.Prelude.{◌≡◌, ◌<◌, [], length, All, IfOk, OnErr};
ghost use Rattle.rp_app.specs.Application.{Application};

use rp_app::{App, CountApp, Delta};
use rp_base::{Cells, Key, NoMemory, Output, Packet};

/// What runs on a switch that never fails. It is less than an application: nothing is promised of packets without a key, so that no
/// switch that may lose its state takes it.
pub trait PlainApp: Drop {
    /// How many cells a flow has, which flow a packet belongs to, and what is made of it.
    ghost meaning: { Self → Application };

    /// How many cells a flow has. Takes no memory.
    fn cells(&self) -> u16
        ensures { result ≡ (meaning self.now).cell_count };

    /// The key of a packet's flow, if it has one.
    ///
    /// # Errors
    /// `NoMemory`.
    fn key_of(&self, p: &Packet) -> Result<Option<Key>, NoMemory>
        ensures { IfOk result (λ key. key ≡ (meaning self.now).key_of p.now) };

    /// The packet's output, if there is one; the cells that it wrote are put into `delta`, which is empty before.
    ///
    /// # Errors
    /// `NoMemory`; then `delta` is empty.
    fn step(&self, cells: &Cells, p: &Packet, delta: &mut Delta) -> Result<Option<Output>, NoMemory>
        requires cells { length cells.now ≡ (meaning self.now).cell_count }
        requires empty { delta.old ≡ [] }
        ensures ok { IfOk result (λ out. (delta.new, out) ≡ (meaning self.now).plain cells.now p.now) }
        ensures within { IfOk result (λ _. All (λ d. d.0 < length cells.now) delta.new) }
        ensures err { OnErr result (delta.new ≡ []) };
}

impl PlainApp for CountApp {
    ghost use Rattle.rp_app.specs.Application.{counting};

    ghost meaning = { λ _. counting };

    fn cells(&self) -> u16 {
        App::cells(self)
    }

    fn key_of(&self, p: &Packet) -> Result<Option<Key>, NoMemory> {
        App::key_of(self, p)
    }

    fn step(
        &self,
        cells: &Cells,
        p: &Packet,
        delta: &mut Delta,
    ) -> Result<Option<Output>, NoMemory> {
        App::step(self, cells, p, delta)
    }
}
