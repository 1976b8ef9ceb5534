//! Applications of tables.
ghost use Rattle.std.specs.Prelude.{◌≡◌, option_map, IfOk, OnOk};
ghost use Rattle.std.specs.Borrow.{Bor};
ghost use Rattle.p4_ast.specs.declared.table.P4Entry.{P4Entry as EntryValue};
ghost use Rattle.app_meaning.specs.Matches.{keyset_row, winner};
ghost use Rattle.app_meaning.specs.Actions.{entries_of, rows, lpm_place, key_values, run_call, run_default, after_look, run_table, apply};
ghost use Rattle.tree_cells.specs.Fit.{Fit};
ghost use Rattle.tree_eval.specs.Seen.{seen};

use crate::action::call;
use app_data::{Run, Scope, Value};
use p4_ast::{P4Call, P4Default, P4Entries, P4Entry, P4Key, P4Local, P4Name, P4Table};
use rp_base::NoMemory;
use sqlite_items::Items;
use std::alloc::Global;
use tree_eval::eval;
use tree_run::values_of;
use tree_tables::{lpm_place, won};

fn entries_of(es: &Option<P4Entries>) -> &[P4Entry]
    ensures { result.now ≡ entries_of es.now }
{
    match es {
        None => &[],
        Some(es) => es.entries.as_slice(),
    }
}

// The values of a table's keys.
fn key_values(
    alloc: Global,
    keys: &[P4Key],
    sc: Scope<'_>,
    values: &[Value],
) -> Result<Items<Value>, NoMemory>
    ensures { IfOk result (λ vs. vs ≡ key_values keys.now (seen sc.entry) values.now) }
{
    let mut vs = Items::new(alloc);
    for k in keys {
        vs.push(eval(k.expr.get(), sc, values))?;
    }
    Ok(vs)
}

// The call of an entry or of `default_action`.
fn run_call(
    alloc: Global,
    sc: Scope<'_>,
    actions: &[P4Local],
    c: &P4Call,
    run: &mut Run,
) -> Result<(), NoMemory>
    requires { Fit sc.registers.now }
    ensures { OnOk result (run.new ≡ run_call (seen sc.entry) actions.now c.now run.old) }
{
    let args = values_of(alloc, c.args.as_slice(), sc, run.values.as_slice())?;
    call(alloc, sc, actions, &c.name, args.as_slice(), run)
}

fn run_default(
    alloc: Global,
    sc: Scope<'_>,
    actions: &[P4Local],
    d: &Option<P4Default>,
    run: &mut Run,
) -> Result<(), NoMemory>
    requires { Fit sc.registers.now }
    ensures { OnOk result (run.new ≡ run_default (seen sc.entry) actions.now d.now run.old) }
{
    match d {
        None => Ok(()),
        Some(d) => run_call(alloc, sc, actions, &d.call, run),
    }
}

// The entry that wins where the keys have these values.
fn entry_for<'a>(sc: Scope<'_>, t: &'a P4Table, keys: &[Value]) -> Option<&'a P4Entry>
    ensures { option_map (λ (x : Bor EntryValue). (keyset_row (seen sc.entry) x.now.keyset, x.now.call)) result ≡ winner (lpm_place t.now.keys.keys) keys.now (rows (seen sc.entry) (entries_of t.now.entries)) }
{
    let lpm = lpm_place(t.keys.keys.as_slice());
    won(sc, lpm, keys, entries_of(&t.entries))
}

// The entry that wins over the values `values` of all slots.
fn looked_up<'a>(
    alloc: Global,
    sc: Scope<'_>,
    t: &'a P4Table,
    values: &[Value],
) -> Result<Option<&'a P4Entry>, NoMemory>
    ensures { IfOk result (λ e. option_map (λ (x : Bor EntryValue). (keyset_row (seen sc.entry) x.now.keyset, x.now.call)) e ≡ winner (lpm_place t.now.keys.keys) (key_values t.now.keys.keys (seen sc.entry) values.now) (rows (seen sc.entry) (entries_of t.now.entries))) }
{
    let keys = key_values(alloc, t.keys.keys.as_slice(), sc, values)?;
    Ok(entry_for(sc, t, keys.as_slice()))
}

// The winning entry's action runs, or else the default one; whether it was a hit.
fn after_look(
    alloc: Global,
    sc: Scope<'_>,
    actions: &[P4Local],
    d: &Option<P4Default>,
    e: Option<&P4Entry>,
    run: &mut Run,
) -> Result<bool, NoMemory>
    requires { Fit sc.registers.now }
    ensures { IfOk result (λ hit. (run.new, hit) ≡ after_look (seen sc.entry) actions.now d.now (option_map (λ (x : Bor EntryValue). (keyset_row (seen sc.entry) x.now.keyset, x.now.call)) e.entry) run.old) }
{
    match e {
        None => {
            run_default(alloc, sc, actions, d, run)?;
            Ok(false)
        }
        Some(e) => {
            run_call(alloc, sc, actions, &e.call, run)?;
            Ok(true)
        }
    }
}

fn run_table(
    alloc: Global,
    sc: Scope<'_>,
    actions: &[P4Local],
    t: &P4Table,
    run: &mut Run,
) -> Result<bool, NoMemory>
    requires { Fit sc.registers.now }
    ensures { IfOk result (λ hit. (run.new, hit) ≡ run_table (seen sc.entry) actions.now t.now run.old) }
{
    let e = looked_up(alloc, sc, t, run.values.as_slice())?;
    after_look(alloc, sc, actions, &t.default, e, run)
}

/// The table of this name among the locals `ls` is applied, its actions being among the locals `actions`, and tells whether it was a
/// hit.
///
/// # Errors
/// `NoMemory`.
pub fn apply(
    alloc: Global,
    sc: Scope<'_>,
    actions: &[P4Local],
    ls: &[P4Local],
    name: &P4Name,
    run: &mut Run,
) -> Result<bool, NoMemory>
    requires { Fit sc.registers.now }
    ensures { IfOk result (λ hit. (run.new, hit) ≡ apply (seen sc.entry) actions.now ls.now name.now.text run.old) }
{
    match ls {
        [] => Ok(false),
        [l, rest @ ..] => match l {
            P4Local::Table(t) => {
                if t.name.text.as_slice() == name.text.as_slice() {
                    run_table(alloc, sc, actions, t, run)
                } else {
                    apply(alloc, sc, actions, rest, name, run)
                }
            }
            P4Local::Const(_) | P4Local::Var(_) | P4Local::Cell(_) | P4Local::Action(_) => {
                apply(alloc, sc, actions, rest, name, run)
            }
        },
    }
}
