//! A flow at a switch that never fails.
ghost use Rattle.std.specs.Prelude.{◌≡◌, [], length, IfOk};
ghost use Rattle.rp_app.specs.Application.{zeros};
ghost use Rattle.plain_run.specs.Plain.{flow_turn};

use crate::app::PlainApp;
use rp_app::Delta;
use rp_base::{Cells, Marks, NoMemory, Output, Packet};
use std::alloc::Global;
use std::marker::Model;

/// The marks of a flow's packets, in order, and its cells.
#[derive(Debug, Drop)]
pub(crate) struct Flow {
    pub(crate) marks: Marks,
    pub(crate) cells: Cells,
}

impl Model for Flow {
    ghost use Rattle.plain_run.specs.Plain.{PlainFlow};

    ghost Value = { PlainFlow };

    ghost view = { λ f. record { marks = f.marks; cells = f.cells } };
}

impl Flow {
    /// A flow before its first packet, whose cells are zeros.
    ///
    /// # Errors
    /// `NoMemory`.
    pub(crate) fn new(alloc: Global, cells: u16) -> Result<Flow, NoMemory>
        ensures { IfOk result (λ flow. flow ≡ record { marks = []; cells = zeros cells }) }
    {
        Ok(Flow {
            marks: Marks::new(alloc),
            cells: Cells::zeros(alloc, cells)?,
        })
    }

    /// Processes a packet, and gives its output, if there is one.
    ///
    /// # Errors
    /// `NoMemory`; then nothing is said of the flow but that it has as many cells.
    pub(crate) fn process<A: PlainApp>(
        &mut self,
        alloc: Global,
        app: &A,
        p: &Packet,
    ) -> Result<Option<Output>, NoMemory>
        requires cells { length self.old.cells ≡ (A.meaning app.now).cell_count }
        ensures turn { IfOk result (λ out. (self.new, out) ≡ flow_turn (A.meaning app.now) self.old p.now) }
        ensures cells { length self.new.cells ≡ length self.old.cells }
    {
        let mut delta = Delta::new(alloc);
        let out = app.step(&self.cells, p, &mut delta)?;
        delta.write(&mut self.cells);
        self.marks.push(p.mark)?;
        Ok(out)
    }
}
