//! A checked program that runs on one switch, by walking its tree.
ghost use Rattle.std.specs.Prelude.{◌≡◌, ◌<◌, [], length, false, All, IfOk, OnErr};
ghost use Rattle.app_meaning.specs.Programs.{application, cell_count, outcome};
ghost use Rattle.tree_app.specs.Ended.{ended};

use crate::run::{Ended, run_in};
use p4_check::Checked;
use plain_run::PlainApp;
use rp_app::Delta;
use rp_base::{Cells, Key, NoMemory, Output, Packet};
use std::alloc::Global;
use std::marker::Model;
use tree_scope::Scopes;

/// A program as it is checked. It isn't an application: only its rewriting stands behind leases.
#[derive(Drop)]
pub struct TreeApp {
    alloc: Global,
    program: Checked,
}

impl Model for TreeApp {
    ghost use Rattle.tree_app.specs.Ended.{IsUnrewritten};
    ghost use Rattle.p4_check.specs.Checking.{CheckedProgram};
    ghost use Rattle.p4_ast.specs.contracts.expression.P4Expr as expr;
    ghost use Rattle.p4_ast.specs.contracts.statement.P4Stmt as stmt;
    ghost use Rattle.p4_ast.specs.contracts.statement.P4Block as block;
    ghost use Rattle.p4_ast.specs.contracts.statement.P4If as branch;
    ghost use Rattle.std.specs.Coded.{codes};

    ghost Value = { CheckedProgram };

    ghost coded = { Prim.hlevel (codes, expr.the_row.coded, stmt.the_row.coded, block.the_row.coded, branch.the_row.coded) };

    ghost view = { λ a. a.program };

    ghost invariant = { λ a. IsUnrewritten a.program };
}

impl TreeApp {
    /// The program, which is a source: it isn't rewritten. Takes no memory.
    pub fn new(alloc: Global, c: Checked) -> TreeApp
        requires { c.rewritten ≡ false }
        ensures { result ≡ c }
    {
        // the program tells here that it is a source
        let _ = c.tree();
        TreeApp { alloc, program: c }
    }

    /// How many cells a flow has. Takes no memory.
    pub fn cells(&self) -> u16
        ensures { result ≡ (application self.now.tree).cell_count }
    {
        self.program.cells()
    }

    /// The key of a packet's flow, if it has one.
    ///
    /// # Errors
    /// `NoMemory`.
    pub fn key_of(&self, p: &Packet) -> Result<Option<Key>, NoMemory>
        ensures { IfOk result (λ key. key ≡ (application self.now.tree).key_of p.now) }
    {
        TreeRun::of(self)?.key_of(p)
    }

    /// The packet's output, if there is one; the cells that it wrote are put into `delta`, which is empty before.
    ///
    /// # Errors
    /// `NoMemory`; then `delta` is empty.
    pub fn step(
        &self,
        cells: &Cells,
        p: &Packet,
        delta: &mut Delta,
    ) -> Result<Option<Output>, NoMemory>
        requires cells { length cells.now ≡ (application self.now.tree).cell_count }
        requires empty { delta.old ≡ [] }
        ensures ok { IfOk result (λ out. (delta.new, out) ≡ (application self.now.tree).plain cells.now p.now) }
        ensures err { OnErr result (delta.new ≡ []) }
    {
        TreeRun::of(self)?.step(cells, p, delta)
    }
}

/// A program with what its names stand for, which is worked out once for many packets.
#[derive(Drop)]
pub struct TreeRun<'a> {
    alloc: Global,
    app: &'a TreeApp,
    scopes: Scopes,
}

impl<'a> Model for TreeRun<'a> {
    ghost use Rattle.std.specs.Prelude.{◌≡◌};
    ghost use Rattle.p4_check.specs.Checking.{CheckedProgram};
    ghost use Rattle.tree_scope.specs.Scopes.{scopes_of};
    ghost use Rattle.p4_ast.specs.contracts.expression.P4Expr as expr;
    ghost use Rattle.p4_ast.specs.contracts.statement.P4Stmt as stmt;
    ghost use Rattle.p4_ast.specs.contracts.statement.P4Block as block;
    ghost use Rattle.p4_ast.specs.contracts.statement.P4If as branch;
    ghost use Rattle.std.specs.Coded.{codes};

    ghost Value = { CheckedProgram };

    ghost coded = { Prim.hlevel (codes, expr.the_row.coded, stmt.the_row.coded, block.the_row.coded, branch.the_row.coded) };

    ghost view = { λ r. r.app.now };

    ghost invariant = { λ r. r.scopes ≡ scopes_of r.app.now.tree r.app.now.cells };
}

impl<'a> TreeRun<'a> {
    /// The run of a program.
    ///
    /// # Errors
    /// `NoMemory`.
    pub fn of(app: &'a TreeApp) -> Result<TreeRun<'a>, NoMemory>
        ensures { IfOk result (λ run. run ≡ app.now) }
    {
        let scopes = Scopes::of(app.alloc, app.program.tree(), app.program.cells())?;
        Ok(TreeRun {
            alloc: app.alloc,
            app,
            scopes,
        })
    }

    // What a packet ends with, over these cells.
    fn ended(&self, cells: Cells, p: &Packet) -> Result<Ended, NoMemory>
        requires { length cells ≡ cell_count self.now.tree }
        ensures value { IfOk result (λ e. e ≡ ended (outcome self.now.tree 0 cells p.now)) }
        ensures within { IfOk result (λ e. All (λ d. d.0 < length cells) e.delta) }
    {
        let app = self.app;
        run_in(self.alloc, app.program.tree(), &self.scopes, 0, cells, p)
    }
}

impl<'a> PlainApp for TreeRun<'a> {
    ghost use Rattle.app_meaning.specs.Programs.{application};

    ghost meaning = { λ r. application r.tree };

    fn cells(&self) -> u16 {
        let app = self.app;
        app.cells()
    }

    fn key_of(&self, p: &Packet) -> Result<Option<Key>, NoMemory> {
        let cells = Cells::zeros(self.alloc, self.cells())?;
        Ok(self.ended(cells, p)?.key)
    }

    fn step(
        &self,
        cells: &Cells,
        p: &Packet,
        delta: &mut Delta,
    ) -> Result<Option<Output>, NoMemory> {
        let ended = self.ended(cells.copy()?, p)?;
        *delta = ended.delta;
        Ok(ended.output)
    }
}
