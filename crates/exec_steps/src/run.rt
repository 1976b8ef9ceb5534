//! Runs of steps.
ghost use Rattle.std.specs.Prelude.{◌≡◌, ℕ, List, Option, Bool, IfOk, OnOk, map};
ghost use Rattle.app_data.specs.declared.value.Value.{Value as ValueValue};
ghost use Rattle.app_data.specs.declared.run.Run.{Run as RunValue};
ghost use Rattle.exec_code.specs.Running.{run_code};
ghost use Rattle.exec_code.specs.Steps.{assign_at, index_number, read_at, write_at, validated, is_wanted, test_at, run_step, one_by_one};
ghost use Rattle.exec_steps.specs.Numbers.{numbered};

use crate::expression::value_of;
use app_data::{Run, Value};
use exec_code::{Code, Reading, Step, Target, Test, Writing};
use p4_ast::P4Validity;
use rp_base::NoMemory;
use sqlite_items::{Boxed, Items};
use std::alloc::Global;
use tree_assign::{assigned, is_invalid, put, renew, set_slot};
use tree_cells::{cell_number, low, set_key, word};
use tree_eval::value_in;

/// What the actions and tables of these numbers do to a run.
pub trait Actions {
    /// What they rest on.
    ghost ready: { Self → Type 0 };

    /// The run after the action of this number with these arguments.
    ghost called: { Self → Option ℕ → List ValueValue → RunValue → RunValue };

    /// The run after the table of this number, and whether it was a hit.
    ghost applied: { Self → Option ℕ → RunValue → RunValue × Bool };

    /// Calls an action.
    ///
    /// # Errors
    /// `NoMemory`.
    fn call(&self, action: Option<usize>, args: &[Value], run: &mut Run) -> Result<(), NoMemory>
        requires { ready self.now }
        ensures { OnOk result (run.new ≡ called self.now action args.now run.old) };

    /// Applies a table, and tells whether it was a hit.
    ///
    /// # Errors
    /// `NoMemory`.
    fn apply(&self, table: Option<usize>, run: &mut Run) -> Result<bool, NoMemory>
        requires { ready self.now }
        ensures { IfOk result (λ hit. (run.new, hit) ≡ applied self.now table run.old) };
}

fn assign(target: Target, n: u128, values: &mut Items<Value>)
    ensures { values.new ≡ assign_at target n values.old }
{
    if is_invalid(values.as_slice(), target.header) {
        return;
    }
    if let Some(i) = target.slot {
        let old = value_in(values.as_slice(), i);
        put(values, i, assigned(old, target.bits, n));
    }
}

fn index_number(index: &Option<Boxed<Code>>, values: &[Value]) -> Option<u128>
    ensures { result ≡ index_number index.now values.now }
{
    match index {
        None => None,
        Some(c) => Some(value_of(c.get(), values).number),
    }
}

fn read(r: &Reading, run: &mut Run)
    ensures { run.new ≡ read_at r.now run.old }
{
    let index = index_number(&r.index, run.values.as_slice());
    let n = cell_number(&run.cells, r.cells.at(index));
    assign(r.target, low(n, r.width) as u128, &mut run.values);
}

fn write(w: &Writing, run: &mut Run) -> Result<(), NoMemory>
    ensures { OnOk result (run.new ≡ write_at w.now run.old) }
{
    let first = value_of(w.first.get(), run.values.as_slice()).number;
    if w.cells.size().is_none() {
        return w.cells.write(None, word(first), run);
    }
    match &w.second {
        None => Ok(()),
        Some(second) => {
            let n = value_of(second.get(), run.values.as_slice()).number;
            w.cells.write(Some(first), word(n), run)
        }
    }
}

fn validate(v: P4Validity, header: usize, fields: u64, values: &mut Items<Value>)
    ensures { values.new ≡ validated v header fields values.old }
{
    match v {
        P4Validity::SetInvalid => renew(fields, header, false, values),
        P4Validity::SetValid => {
            if value_in(values.as_slice(), header).number != 1 {
                renew(fields, header, true, values);
            }
        }
    }
}

fn call<A: Actions>(
    alloc: Global,
    action: Option<usize>,
    args: &[Boxed<Code>],
    actions: &A,
    run: &mut Run,
) -> Result<(), NoMemory>
    requires { A.ready actions.now }
    ensures { OnOk result (run.new ≡ A.called actions.now action (map (λ c. run_code c run.old.values) args.now) run.old) }
{
    let values = values_of(alloc, args, run.values.as_slice())?;
    actions.call(action, values.as_slice(), run)
}

fn values_of(
    alloc: Global,
    args: &[Boxed<Code>],
    values: &[Value],
) -> Result<Items<Value>, NoMemory>
    ensures { IfOk result (λ vs. vs ≡ map (λ c. run_code c values.now) args.now) }
{
    let mut vs = Items::new(alloc);
    for c in args {
        vs.push(value_of(c.get(), values))?;
    }
    Ok(vs)
}

fn test<A: Actions>(t: &Test, actions: &A, run: &mut Run) -> Result<bool, NoMemory>
    requires { A.ready actions.now }
    ensures { IfOk result (λ b. (run.new, b) ≡ test_at t.now (numbered (A.called actions.now) (A.applied actions.now)) run.old) }
{
    match t {
        Test::Holds(c) => Ok(value_of(c.get(), run.values.as_slice()).number == 1),
        Test::Hits(table, wanted) => {
            let hit = actions.apply(*table, run)?;
            Ok(is_wanted(*wanted, hit))
        }
    }
}

fn is_wanted(wanted: bool, hit: bool) -> bool
    ensures { result ≡ is_wanted wanted hit }
{
    if wanted { hit } else { !hit }
}

/// The run goes through a step.
///
/// # Errors
/// `NoMemory`.
#[cycle(walk)]
#[tactic(auto, using(crate::proofs::Codes::step_rules))]
pub fn step<A: Actions>(alloc: Global, s: &Step, actions: &A, run: &mut Run) -> Result<(), NoMemory>
    requires { A.ready actions.now }
    ensures { OnOk result (run.new ≡ run_step s.now (numbered (A.called actions.now) (A.applied actions.now)) run.old) }
{
    match s {
        Step::Set(slot, c) => {
            let v = value_of(c.get(), run.values.as_slice());
            set_slot(&mut run.values, *slot, v);
            Ok(())
        }
        Step::Assign(target, c) => {
            let n = value_of(c.get(), run.values.as_slice()).number;
            assign(*target, n, &mut run.values);
            Ok(())
        }
        Step::Read(r) => {
            read(r.get(), run);
            Ok(())
        }
        Step::Write(w) => write(w.get(), run),
        Step::Key(c) => {
            let v = value_of(c.get(), run.values.as_slice());
            set_key(run, v);
            Ok(())
        }
        Step::Validate(v, header, fields) => {
            validate(*v, *header, *fields, &mut run.values);
            Ok(())
        }
        Step::Apply(table) => {
            actions.apply(*table, run)?;
            Ok(())
        }
        Step::Call(action, args) => call(alloc, *action, args.as_slice(), actions, run),
        Step::If(t, yes, no) => {
            if test(t.get(), actions, run)? {
                step(alloc, yes.get(), actions, run)
            } else {
                step(alloc, no.get(), actions, run)
            }
        }
        Step::Block(xs) => steps(alloc, xs.as_slice(), actions, run),
    }
}

// The run goes through steps, one after the other.
#[cycle(walk)]
fn steps<A: Actions>(
    alloc: Global,
    xs: &[Boxed<Step>],
    actions: &A,
    run: &mut Run,
) -> Result<(), NoMemory>
    requires { A.ready actions.now }
    ensures { OnOk result (run.new ≡ one_by_one (map run_step xs.now) (numbered (A.called actions.now) (A.applied actions.now)) run.old) }
{
    for x in xs {
        step(alloc, x.get(), actions, run)?;
    }
    Ok(())
}
