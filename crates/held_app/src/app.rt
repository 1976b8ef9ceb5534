//! A rewritten program as an application: it processes where the lease is held, and tells keys where it isn't.
ghost use Rattle.std.specs.Prelude.{◌≡◌, ◌<◌, ◌≤◌, [], length, true, false, IfOk};
ghost use Rattle.app_meaning.specs.Programs.{application, outcome};
ghost use Rattle.rewrite_laws.specs.Leases.{held_application};
ghost use Rattle.tree_app.specs.Ended.{ended};
ghost use Rattle.held_app.specs.Held.{program_of};

use crate::program::HeldApp;
use p4_check::Checked;
use rp_app::{App, Delta};
use rp_base::{Cells, Key, NoMemory, Output, Packet};
use rp_rewrite::rewrite;
use std::alloc::Global;
use tree_app::{Ended, run_in};
use tree_scope::Scopes;

impl HeldApp {
    /// The application of a rewritten program.
    ///
    /// # Errors
    /// `NoMemory`.
    pub fn of(alloc: Global, c: Checked) -> Result<HeldApp, NoMemory>
        requires { c.rewritten ≡ true }
        ensures { IfOk result (λ app. program_of app ≡ c) }
    {
        let scopes = Scopes::of(alloc, c.tree(), c.cells())?;
        Ok(HeldApp {
            alloc,
            program: c,
            scopes,
        })
    }

    /// The application that a checked program is behind the leases of its flows.
    ///
    /// # Errors
    /// `NoMemory`.
    pub fn of_source(alloc: Global, c: &Checked) -> Result<HeldApp, NoMemory>
        requires { c.now.rewritten ≡ false }
        ensures value { IfOk result (λ app. held_application (program_of app).tree (program_of app).cells ≡ application c.now.tree) }
        ensures few { IfOk result (λ app. (program_of app).cells ≤ 256) }
    {
        // the program tells here that it is a source
        let _ = c.tree();
        let rewritten = rewrite(alloc, c)?;
        HeldApp::of(alloc, rewritten)
    }

    // What a packet ends with, over these cells; `held` is 1 where the switch holds the flow's lease.
    fn ended(&self, held: u128, cells: Cells, p: &Packet) -> Result<Ended, NoMemory>
        requires { length cells ≡ (program_of self.now).cells }
        ensures { IfOk result (λ e. e ≡ ended (outcome (program_of self.now).tree held cells p.now)) }
    {
        run_in(
            self.alloc,
            self.program.tree(),
            &self.scopes,
            held,
            cells,
            p,
        )
    }
}

impl App for HeldApp {
    ghost use Rattle.rewrite_laws.specs.Leases.{held_application};
    ghost use Rattle.held_app.specs.Held.{program_of};
    ghost use Rattle.held_app.specs.Promised.{held_promised};

    ghost meaning = { λ a. held_application (program_of a).tree (program_of a).cells };

    ghost promised = { λ a. held_promised a.program.tree a.program.cells a.rewritten };

    fn cells(&self) -> u16 {
        self.program.cells()
    }

    fn key_of(&self, p: &Packet) -> Result<Option<Key>, NoMemory> {
        let cells = Cells::zeros(self.alloc, self.program.cells())?;
        Ok(self.ended(0, cells, p)?.key)
    }

    fn step(
        &self,
        cells: &Cells,
        p: &Packet,
        delta: &mut Delta,
    ) -> Result<Option<Output>, NoMemory> {
        let ended = self.ended(1, cells.copy()?, p)?;
        *delta = ended.delta;
        Ok(ended.output)
    }
}
