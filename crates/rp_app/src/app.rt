//! What an application is.
ghost use Rattle.std.specs.Prelude.{◌≡◌, ◌≤◌, [], length, IfOk, OnOk, OnErr};
ghost use Rattle.rp_app.specs.Application.{Application, IsApplication};

use crate::delta::Delta;
use rp_base::{Cells, Key, NoMemory, Output, Packet};

/// An application: it keeps so many cells for each flow, and makes an output and new cells of a packet and the cells of its flow.
pub trait App: Drop {
    /// How many cells a flow has, which flow a packet belongs to, and what the application makes of it.
    ghost meaning: { Self → Application };

    /// How many cells a flow has. Takes no memory.
    fn cells(&self) -> u16
        ensures { result ≡ (meaning self.now).cell_count };

    /// The key of a packet's flow, if it has one.
    ///
    /// # Errors
    /// `NoMemory`.
    fn key_of(&self, p: &Packet) -> Result<Option<Key>, NoMemory>
        ensures { IfOk result (λ key. key ≡ (meaning self.now).key_of p.now) };

    /// The packet's output, if there is one; the cells that it wrote are put into `delta`, which is empty before.
    ///
    /// # Errors
    /// `NoMemory`; then `delta` is empty.
    fn step(&self, cells: &Cells, p: &Packet, delta: &mut Delta) -> Result<Option<Output>, NoMemory>
        requires cells { length cells.now ≡ (meaning self.now).cell_count }
        requires empty { delta.old ≡ [] }
        ensures ok { IfOk result (λ out. (delta.new, out) ≡ (meaning self.now).plain cells.now p.now) }
        ensures err { OnErr result (delta.new ≡ []) };

    /// What is promised of every application.
    ghost promised: { (app : Self) → IsApplication (meaning app) };
}
