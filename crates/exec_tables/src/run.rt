//! Runs of a control's actions and tables.
ghost use Rattle.std.specs.Prelude.{◌≡◌, ◌<◌, List, Some, length, IfOk, OnOk};
ghost use Rattle.app_data.specs.declared.value.Value.{Value as ValueValue};
ghost use Rattle.exec_tables.specs.Applying.{code_values, run_call_at, default_at, after_at, looked_at, table_at, call_at, applied_by, apply_at};
ghost use Rattle.exec_tables.specs.Ready.{IsReady, AreReady};
ghost use Rattle.match_tables.specs.Winning.{look};
ghost use Rattle.table_rows.specs.Rows.{row_at, numbers};

use crate::local::{Call, Local, Table};
use app_data::{Run, Value};
use exec_actions::run_action;
use exec_code::Code;
use exec_steps::{Actions, value_of};
use match_tables::Table as Rows;
use rp_base::NoMemory;
use sqlite_items::{Boxed, Items};
use std::alloc::Global;
use std::marker::Brand;
use std::sync::ledger::{Blank, Ledger};
use step_count::Steps;

// The values of codes.
fn values_of(alloc: Global, cs: &[Boxed<Code>], values: &[Value]) -> Result<Items<Value>, NoMemory>
    ensures { IfOk result (λ vs. vs ≡ code_values cs.now values.now) }
{
    let mut vs = Items::new(alloc);
    for c in cs {
        vs.push(value_of(c.get(), values))?;
    }
    Ok(vs)
}

// The numbers of the values of codes.
fn numbers_of(alloc: Global, cs: &[Boxed<Code>], values: &[Value]) -> Result<Items<u128>, NoMemory>
    ensures { IfOk result (λ ns. ns ≡ numbers (code_values cs.now values.now)) }
{
    let mut ns = Items::new(alloc);
    for c in cs {
        ns.push(value_of(c.get(), values).number)?;
    }
    Ok(ns)
}

// The number of the entry that wins.
fn number_of<L: Ledger>(rows: &Rows, keys: &[u128], blank: Blank) -> Option<u64>
    requires keys { length keys.now ≡ length rows.now.keys }
    requires name { blank.name ≡ L.name }
    requires parts { blank.parts ≡ L.parts }
    requires some { 0 < blank.parts }
    ensures { result ≡ look rows.now keys.now }
{
    let mut steps = Steps::<L>::of(blank);
    rows.look(keys, &mut steps)
}

fn call(
    alloc: Global,
    ls: &[Boxed<Local>],
    action: Option<usize>,
    args: &[Value],
    run: &mut Run,
) -> Result<(), NoMemory>
    ensures { OnOk result (run.new ≡ call_at ls.now action args.now run.old) }
{
    let Some(i) = action else {
        return Ok(());
    };
    let Some(l) = ls.get(i) else {
        return Ok(());
    };
    match l.get() {
        Local::Action(a) => run_action(alloc, a.get(), args, run),
        Local::Table(_) | Local::Other => Ok(()),
    }
}

fn run_call(alloc: Global, ls: &[Boxed<Local>], c: &Call, run: &mut Run) -> Result<(), NoMemory>
    ensures { OnOk result (run.new ≡ run_call_at ls.now c.now run.old) }
{
    let args = values_of(alloc, c.args.as_slice(), run.values.as_slice())?;
    call(alloc, ls, c.action, args.as_slice(), run)
}

fn run_default(
    alloc: Global,
    ls: &[Boxed<Local>],
    d: &Option<Boxed<Call>>,
    run: &mut Run,
) -> Result<(), NoMemory>
    ensures { OnOk result (run.new ≡ default_at ls.now d.now run.old) }
{
    match d {
        None => Ok(()),
        Some(c) => run_call(alloc, ls, c.get(), run),
    }
}

// The winning entry's call runs, or else the default one; whether it was a hit.
fn after(
    alloc: Global,
    ls: &[Boxed<Local>],
    t: &Table,
    row: Option<u64>,
    run: &mut Run,
) -> Result<bool, NoMemory>
    ensures { IfOk result (λ hit. (run.new, hit) ≡ after_at ls.now t.now.default (row_at t.now.calls row) run.old) }
{
    if let Some(n) = row {
        if let Some(c) = t.calls.get(n as usize) {
            run_call(alloc, ls, c.get(), run)?;
            return Ok(true);
        }
    }
    run_default(alloc, ls, &t.default, run)?;
    Ok(false)
}

fn run_table(alloc: Global, ls: &[Boxed<Local>], t: &Table, run: &mut Run) -> Result<bool, NoMemory>
    requires { length t.now.keys ≡ length t.now.rows.keys }
    ensures { IfOk result (λ hit. (run.new, hit) ≡ table_at ls.now t.now run.old) }
{
    let keys = numbers_of(alloc, t.keys.as_slice(), run.values.as_slice())?;
    let row = number_of::<Brand>(t.rows.get(), keys.as_slice(), Blank::new(1));
    after(alloc, ls, t, row, run)
}

// A local is applied: nothing where it is no table.
fn applied(alloc: Global, ls: &[Boxed<Local>], l: &Local, run: &mut Run) -> Result<bool, NoMemory>
    requires { IsReady l.now }
    ensures { IfOk result (λ hit. (run.new, hit) ≡ applied_by ls.now (Some l.now) run.old) }
{
    match l {
        Local::Table(t) => {
            let hit = run_table(alloc, ls, t.get(), run)?;
            Ok(hit)
        }
        Local::Action(_) | Local::Other => Ok(false),
    }
}

fn apply(
    alloc: Global,
    ls: &[Boxed<Local>],
    table: Option<usize>,
    run: &mut Run,
) -> Result<bool, NoMemory>
    requires { AreReady ls.now }
    ensures { IfOk result (λ hit. (run.new, hit) ≡ apply_at ls.now table run.old) }
{
    let Some(i) = table else {
        return Ok(false);
    };
    match ls.get(i) {
        None => Ok(false),
        Some(l) => {
            let hit = applied(alloc, ls, l.get(), run)?;
            Ok(hit)
        }
    }
}

/// A control's actions and tables, by their places among its locals.
#[derive(Drop)]
pub struct Locals<'a> {
    pub alloc: Global,
    pub items: &'a [Boxed<Local>],
}

impl Actions for Locals<'_> {
    ghost ready = { λ s. AreReady s.items.now };

    ghost called = { λ s. call_at s.items.now };

    ghost applied = { λ s. apply_at s.items.now };

    fn call(&self, action: Option<usize>, args: &[Value], run: &mut Run) -> Result<(), NoMemory> {
        call(self.alloc, self.items, action, args, run)
    }

    fn apply(&self, table: Option<usize>, run: &mut Run) -> Result<bool, NoMemory> {
        apply(self.alloc, self.items, table, run)
    }
}
