//! The steps of calls, branches and blocks.
ghost use Rattle.std.specs.Prelude.{◌≡◌, ℕ, List, Bool, IfOk, map, option_map};
ghost use Rattle.std.specs.List.{position};
ghost use Rattle.app_data.specs.declared.run.Run.{Run as RunValue};
ghost use Rattle.app_data.specs.declared.value.Value.{Value as ValueValue};
ghost use Rattle.app_meaning.specs.Slots.{Name, text};
ghost use Rattle.app_meaning.specs.Statements.{values_of, negated_if, is_outcome, or_nothing, test, run_stmt, run_block, run_if};
ghost use Rattle.exec_code.specs.Running.{run_code};
ghost use Rattle.exec_code.specs.Steps.{Numbered, is_wanted, test_at, run_step};
ghost use Rattle.exec_steps.specs.Tied.{action_number, table_number, is_action, is_table, IsTied, DoesAs, DoAs};
ghost use Rattle.tree_cells.specs.Fit.{Fit};
ghost use Rattle.tree_eval.specs.Seen.{seen};
ghost use Rattle.tree_run.specs.Contexts.{context};

use crate::expression::code_of;
use crate::statement::{
    assign_of, boxed, declare_of, key_of, nothing, read_of, valid_of, write_of,
};
use app_data::Scope;
use exec_code::{Code, Step, Test};
use p4_ast::{P4Block, P4Callstmt, P4Cond, P4Expr, P4If, P4Local, P4Name, P4Outcome, P4Stmt};
use rp_base::NoMemory;
use sqlite_items::{Boxed, Items};
use std::alloc::Global;

fn is_action(name: &P4Name, l: &P4Local) -> bool
    ensures { result ≡ is_action (text name.now) l.now }
{
    match l {
        P4Local::Action(a) => a.name.text.as_slice() == name.text.as_slice(),
        P4Local::Var(_) | P4Local::Const(_) | P4Local::Cell(_) | P4Local::Table(_) => false,
    }
}

fn is_table(name: &P4Name, l: &P4Local) -> bool
    ensures { result ≡ is_table (text name.now) l.now }
{
    match l {
        P4Local::Table(t) => t.name.text.as_slice() == name.text.as_slice(),
        P4Local::Var(_) | P4Local::Const(_) | P4Local::Cell(_) | P4Local::Action(_) => false,
    }
}

/// The number of the action of this name, if there is one: its place among the locals.
pub fn action_number(locals: &[P4Local], name: &P4Name) -> Option<usize>
    ensures { result ≡ action_number locals.now (text name.now) }
{
    locals.iter().position(|l| is_action(name, l))
}

/// The number of the table of this name, if there is one: its place among the locals.
pub fn table_number(locals: &[P4Local], name: &P4Name) -> Option<usize>
    ensures { result ≡ table_number locals.now (text name.now) }
{
    locals.iter().position(|l| is_table(name, l))
}

// The outcome of a table that a condition wants: whether a hit.
fn wanted(negated: bool, outcome: P4Outcome) -> bool
    ensures { (hit : Bool) → is_wanted result hit ≡ negated_if negated (is_outcome outcome hit) }
{
    match outcome {
        P4Outcome::Hit => !negated,
        P4Outcome::Miss => negated,
    }
}

fn test_of(
    alloc: Global,
    c: &P4Cond,
    sc: Scope<'_>,
    locals: &[P4Local],
) -> Result<Boxed<Test>, NoMemory>
    ensures { IfOk result (λ t. (called : Name → List ValueValue → RunValue → RunValue) (applied : Name → RunValue → RunValue × Bool) (ns : Numbered) → IsTied locals.now called applied ns → (run : RunValue) → test_at t ns run ≡ test c.now (context sc.entry called applied) run) }
{
    match c {
        P4Cond::Expr(e) => {
            let code = code_of(alloc, e.get(), sc)?;
            Ok(Boxed::new(alloc, Test::Holds(code))?)
        }
        P4Cond::Apply {
            at: _,
            negated,
            name,
            outcome,
        } => {
            let test = Test::Hits(table_number(locals, name), wanted(*negated, *outcome));
            Ok(Boxed::new(alloc, test)?)
        }
    }
}

/// The codes of expressions, in their order.
///
/// # Errors
/// `NoMemory`.
pub fn codes_of(alloc: Global, es: &[P4Expr], sc: Scope<'_>) -> Result<Items<Boxed<Code>>, NoMemory>
    ensures { IfOk result (λ cs. (values : List ValueValue) → map (λ c. run_code c values) cs ≡ values_of es.now (seen sc.entry) values) }
{
    let mut cs = Items::new(alloc);
    for e in es {
        cs.push(code_of(alloc, e, sc)?)?;
    }
    Ok(cs)
}

#[tactic(auto, using(crate::proofs::Codes::step_rules))]
fn call_of(
    alloc: Global,
    c: &P4Callstmt,
    sc: Scope<'_>,
    locals: &[P4Local],
) -> Result<Boxed<Step>, NoMemory>
    ensures { IfOk result (λ s. (ns : Numbered) (run : RunValue) → run_step s ns run ≡ ns.call (action_number locals.now (text c.now.name)) (values_of c.now.args (seen sc.entry) run.values) run) }
{
    let args = codes_of(alloc, c.args.as_slice(), sc)?;
    Ok(boxed(alloc, Step::Call(action_number(locals, &c.name), args))?)
}

#[tactic(auto, using(crate::proofs::Codes::step_rules))]
fn apply_of(alloc: Global, name: &P4Name, locals: &[P4Local]) -> Result<Boxed<Step>, NoMemory>
    ensures { IfOk result (λ s. (ns : Numbered) (run : RunValue) → run_step s ns run ≡ (ns.apply (table_number locals.now (text name.now)) run).0) }
{
    Ok(boxed(alloc, Step::Apply(table_number(locals, name)))?)
}

/// The step of a statement.
///
/// # Errors
/// `NoMemory`.
#[cycle(compile)]
#[tactic(auto, using(crate::proofs::Codes::runs))]
pub fn step_of(
    alloc: Global,
    s: &P4Stmt,
    sc: Scope<'_>,
    locals: &[P4Local],
) -> Result<Boxed<Step>, NoMemory>
    requires { Fit sc.registers.now }
    ensures { IfOk result (λ step. DoesAs locals.now sc.entry step (run_stmt s.now)) }
{
    match s {
        P4Stmt::Block(b) => block_of(alloc, b, sc, locals),
        P4Stmt::Var(v) => declare_of(alloc, v, sc),
        P4Stmt::Assign(a) => assign_of(alloc, a, sc),
        P4Stmt::Read(r) => read_of(alloc, r, sc),
        P4Stmt::Write(w) => write_of(alloc, w, sc),
        P4Stmt::Keystmt(k) => key_of(alloc, k, sc),
        P4Stmt::Valid(v) => valid_of(alloc, v, sc),
        P4Stmt::Apply(a) => apply_of(alloc, &a.name, locals),
        P4Stmt::Callstmt(c) => call_of(alloc, c, sc, locals),
        P4Stmt::If(i) => branches_of(alloc, i, sc, locals),
    }
}

// The steps of statements.
#[cycle(compile)]
fn steps_of(
    alloc: Global,
    xs: &[P4Stmt],
    sc: Scope<'_>,
    locals: &[P4Local],
) -> Result<Items<Boxed<Step>>, NoMemory>
    requires { Fit sc.registers.now }
    ensures { IfOk result (λ steps. DoAs locals.now sc.entry steps xs.now) }
{
    let mut steps = Items::new(alloc);
    for x in xs {
        steps.push(step_of(alloc, x, sc, locals)?)?;
    }
    Ok(steps)
}

/// The step of a block.
///
/// # Errors
/// `NoMemory`.
#[cycle(compile)]
#[tactic(auto, using(crate::proofs::Codes::block_is, crate::proofs::Codes::step_rules))]
pub fn block_of(
    alloc: Global,
    b: &P4Block,
    sc: Scope<'_>,
    locals: &[P4Local],
) -> Result<Boxed<Step>, NoMemory>
    requires { Fit sc.registers.now }
    ensures { IfOk result (λ step. DoesAs locals.now sc.entry step (run_block b.now)) }
{
    let steps = steps_of(alloc, b.stmts.as_slice(), sc, locals)?;
    Ok(boxed(alloc, Step::Block(steps))?)
}

// The step of what follows `else`; nothing where that is missing.
#[cycle(compile)]
fn else_of(
    alloc: Global,
    b: &Option<P4Block>,
    sc: Scope<'_>,
    locals: &[P4Local],
) -> Result<Boxed<Step>, NoMemory>
    requires { Fit sc.registers.now }
    ensures { IfOk result (λ step. DoesAs locals.now sc.entry step (or_nothing (option_map run_block b.now))) }
{
    match b {
        None => nothing(alloc),
        Some(b) => block_of(alloc, b, sc, locals),
    }
}

#[cycle(compile)]
#[tactic(auto, using(crate::proofs::Codes::if_is, crate::proofs::Codes::step_rules))]
fn branches_of(
    alloc: Global,
    i: &P4If,
    sc: Scope<'_>,
    locals: &[P4Local],
) -> Result<Boxed<Step>, NoMemory>
    requires { Fit sc.registers.now }
    ensures { IfOk result (λ step. DoesAs locals.now sc.entry step (run_if i.now)) }
{
    let test = test_of(alloc, &i.cond, sc, locals)?;
    let first = block_of(alloc, &i.then, sc, locals)?;
    let second = else_of(alloc, &i.else_, sc, locals)?;
    Ok(boxed(alloc, Step::If(test, first, second))?)
}
