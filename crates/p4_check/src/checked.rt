//! Checked programs.
ghost use Rattle.std.specs.Prelude.{◌≡◌, IfOk, true, false};
ghost use Rattle.p4_check.specs.Checking.{Checks, IsSource, IsRewritten};

use crate::end::CheckEnd;
use crate::program::{program, with_parts};
use p4_ast::P4Program;
use p4_scope::Scope;
use rp_base::NoMemory;
use sqlite_items::Boxed;
use std::alloc::Global;
use std::marker::Model;

/// A program that was checked: each literal of its tree has the width of its place. Only a check makes one, and only the tree that such
/// a program is rewritten to makes a rewritten one.
#[derive(Drop)]
pub struct Checked {
    tree: P4Program,
    cells: u16,
    rewritten: bool,
}

impl Model for Checked {
    ghost use Rattle.std.specs.Prelude.{◌≡◌, true, false};
    ghost use Rattle.p4_check.specs.Checking.{CheckedProgram, IsSource, IsRewritten};
    ghost use Rattle.p4_ast.specs.contracts.expression.P4Expr as expr;
    ghost use Rattle.p4_ast.specs.contracts.statement.P4Stmt as stmt;
    ghost use Rattle.p4_ast.specs.contracts.statement.P4Block as block;
    ghost use Rattle.p4_ast.specs.contracts.statement.P4If as branch;
    ghost use Rattle.std.specs.Coded.{codes};

    ghost Value = { CheckedProgram };

    ghost coded = { Prim.hlevel (codes, expr.the_row.coded, stmt.the_row.coded, block.the_row.coded, branch.the_row.coded) };

    ghost view = { λ c. record { tree = c.tree; cells = c.cells; rewritten = c.rewritten } };

    ghost invariant = { λ c. (c.rewritten ≡ false → IsSource c.tree c.cells) × (c.rewritten ≡ true → IsRewritten c.tree c.cells) };
}

impl Checked {
    /// The rewritten form of a program that was checked: the tree that it is rewritten to, and the number of its cells.
    pub fn rewritten(tree: P4Program, cells: u16) -> Checked
        requires { IsRewritten tree cells }
        ensures { result ≡ record { tree = tree; cells = cells; rewritten = true } }
    {
        Checked {
            tree,
            cells,
            rewritten: true,
        }
    }

    /// Whether it is a rewritten program. Otherwise it is a source.
    pub fn is_rewritten(&self) -> bool
        ensures { result ≡ self.now.rewritten }
    {
        self.rewritten
    }

    /// The tree.
    pub fn tree(&self) -> &P4Program
        ensures value { result.now ≡ self.now.tree }
        ensures source { self.now.rewritten ≡ false → IsSource self.now.tree self.now.cells }
        ensures rewritten { self.now.rewritten ≡ true → IsRewritten self.now.tree self.now.cells }
    {
        &self.tree
    }

    /// How many cells the program has.
    pub fn cells(&self) -> u16
        ensures { result ≡ self.now.cells }
    {
        self.cells
    }
}

fn boxed(alloc: Global, t: P4Program) -> Result<Boxed<P4Program>, NoMemory>
    ensures { IfOk result (λ b. b ≡ t) }
{
    Ok(Boxed::new(alloc, t)?)
}

/// The checked form of a program, or why it has none.
///
/// # Errors
/// `Refused` with the least place at which the program is wrong and the first cause there; `NoMemory`.
pub fn check(alloc: Global, t: P4Program) -> Result<Checked, CheckEnd>
    ensures { Checks result t }
{
    let t = boxed(alloc, t)?;
    let mut s = Scope::outermost(alloc)?;
    let parts = program(alloc, t.get(), &mut s)?;
    if let Some(f) = s.fault() {
        return Err(CheckEnd::Refused(f));
    }
    let cells = s.cells().min(257) as u16;
    let tree = with_parts(t.into_inner(), parts.into_inner());
    Ok(Checked {
        tree,
        cells,
        rewritten: false,
    })
}
