//! Statements, blocks and branches.
ghost use Rattle.std.specs.Prelude.{◌≡◌, map, IfOk, OnOk};
ghost use Rattle.app_meaning.specs.Statements.{test, is_outcome, values_of, in_turn, run_stmt, run_block, run_if};
ghost use Rattle.tree_cells.specs.Fit.{Fit};
ghost use Rattle.tree_eval.specs.Seen.{seen};
ghost use Rattle.tree_run.specs.Contexts.{context};

use crate::calls::Calls;
use crate::values::values_of;
use app_data::{Run, Scope};
use p4_ast::{P4Block, P4Callstmt, P4Cond, P4If, P4Outcome, P4Stmt};
use rp_base::NoMemory;
use std::alloc::Global;
use tree_assign::{assign, declare, validate};
use tree_cells::{read, set_key, write};
use tree_eval::{eval, slot_of};

// A call of an action.
fn callstmt<C: Calls>(
    alloc: Global,
    c: &P4Callstmt,
    sc: Scope<'_>,
    calls: &C,
    run: &mut Run,
) -> Result<(), NoMemory>
    requires { C.ready calls.now }
    ensures { OnOk result (run.new ≡ C.called calls.now c.now.name.text (values_of c.now.args (seen sc.entry) run.old.values) run.old) }
{
    let args = values_of(alloc, c.args.as_slice(), sc, run.values.as_slice())?;
    calls.call(&c.name, args.as_slice(), run)
}

// Whether a condition holds; the table that it may apply is applied.
fn test<C: Calls>(c: &P4Cond, sc: Scope<'_>, calls: &C, run: &mut Run) -> Result<bool, NoMemory>
    requires { C.ready calls.now }
    ensures { IfOk result (λ b. (run.new, b) ≡ test c.now (context sc.entry (C.called calls.now) (C.applied calls.now)) run.old) }
{
    match c {
        P4Cond::Expr(e) => Ok(eval(e.get(), sc, run.values.as_slice()).number == 1),
        P4Cond::Apply {
            at: _,
            negated,
            name,
            outcome,
        } => {
            let hit = calls.apply(name, run)?;
            Ok(is_outcome(*outcome, hit) != *negated)
        }
    }
}

fn is_outcome(outcome: P4Outcome, hit: bool) -> bool
    ensures { result ≡ is_outcome outcome hit }
{
    match outcome {
        P4Outcome::Hit => hit,
        P4Outcome::Miss => !hit,
    }
}

/// The run goes through a statement.
///
/// # Errors
/// `NoMemory`.
#[cycle(walk)]
#[tactic(auto, using(crate::proofs::Walks::runs))]
pub fn stmt<C: Calls>(
    alloc: Global,
    s: &P4Stmt,
    sc: Scope<'_>,
    calls: &C,
    run: &mut Run,
) -> Result<(), NoMemory>
    requires fit { Fit sc.registers.now }
    requires ready { C.ready calls.now }
    ensures { OnOk result (run.new ≡ run_stmt s.now (context sc.entry (C.called calls.now) (C.applied calls.now)) run.old) }
{
    match s {
        P4Stmt::Block(b) => block(alloc, b, sc, calls, run),
        P4Stmt::Var(v) => {
            declare(sc, v, &mut run.values);
            Ok(())
        }
        P4Stmt::Assign(a) => {
            let n = eval(a.expr.get(), sc, run.values.as_slice()).number;
            assign(sc, &a.left, n, &mut run.values);
            Ok(())
        }
        P4Stmt::Read(r) => {
            read(sc, r, run);
            Ok(())
        }
        P4Stmt::Write(w) => write(sc, w, run),
        P4Stmt::Keystmt(k) => {
            let v = eval(k.expr.get(), sc, run.values.as_slice());
            set_key(run, v);
            Ok(())
        }
        P4Stmt::Valid(v) => {
            let header = slot_of(sc, v.path.names.as_slice());
            validate(sc, v.validity, header, &mut run.values);
            Ok(())
        }
        P4Stmt::Apply(a) => {
            calls.apply(&a.name, run)?;
            Ok(())
        }
        P4Stmt::Callstmt(c) => callstmt(alloc, c, sc, calls, run),
        P4Stmt::If(i) => branches(alloc, i, sc, calls, run),
    }
}

// The run goes through statements, one after the other.
#[cycle(walk)]
fn stmts<C: Calls>(
    alloc: Global,
    xs: &[P4Stmt],
    sc: Scope<'_>,
    calls: &C,
    run: &mut Run,
) -> Result<(), NoMemory>
    requires fit { Fit sc.registers.now }
    requires ready { C.ready calls.now }
    ensures { OnOk result (run.new ≡ in_turn (map run_stmt xs.now) (context sc.entry (C.called calls.now) (C.applied calls.now)) run.old) }
{
    for x in xs {
        stmt(alloc, x, sc, calls, run)?;
    }
    Ok(())
}

/// The run goes through a block.
///
/// # Errors
/// `NoMemory`.
#[cycle(walk)]
#[tactic(auto, using(crate::proofs::Walks::block_is))]
pub fn block<C: Calls>(
    alloc: Global,
    b: &P4Block,
    sc: Scope<'_>,
    calls: &C,
    run: &mut Run,
) -> Result<(), NoMemory>
    requires fit { Fit sc.registers.now }
    requires ready { C.ready calls.now }
    ensures { OnOk result (run.new ≡ run_block b.now (context sc.entry (C.called calls.now) (C.applied calls.now)) run.old) }
{
    stmts(alloc, b.stmts.as_slice(), sc, calls, run)
}

#[cycle(walk)]
#[tactic(auto, using(crate::proofs::Walks::if_is))]
fn branches<C: Calls>(
    alloc: Global,
    i: &P4If,
    sc: Scope<'_>,
    calls: &C,
    run: &mut Run,
) -> Result<(), NoMemory>
    requires fit { Fit sc.registers.now }
    requires ready { C.ready calls.now }
    ensures { OnOk result (run.new ≡ run_if i.now (context sc.entry (C.called calls.now) (C.applied calls.now)) run.old) }
{
    if test(&i.cond, sc, calls, run)? {
        return block(alloc, &i.then, sc, calls, run);
    }
    match &i.else_ {
        Some(b) => block(alloc, b, sc, calls, run),
        None => Ok(()),
    }
}
