//! What is made of a control's actions and tables.
ghost use Rattle.std.specs.Prelude.{◌≡◌, List, IfOk};
ghost use Rattle.app_data.specs.declared.value.Value.{Value as ValueValue};
ghost use Rattle.app_meaning.specs.Actions.{entries_of, key_values, call, apply};
ghost use Rattle.exec_tables.specs.Applying.{code_values, numbered_by};
ghost use Rattle.exec_tables.specs.Ready.{AreReady};
ghost use Rattle.exec_steps.specs.Tied.{IsTied};
ghost use Rattle.exec_tables.specs.Locals.{IsCall, AreCalls, IsDefault, IsTable, IsLocal, AreLocals};
ghost use Rattle.tree_cells.specs.Fit.{Fit};
ghost use Rattle.tree_eval.specs.Seen.{seen};

use crate::local::{Call, Local, Table};
use app_data::{Scope, Value};
use exec_actions::action_of;
use exec_code::Code;
use exec_steps::{action_number, code_of, codes_of};
use p4_ast::{P4Call, P4Default, P4Entries, P4Entry, P4Key, P4Local, P4Table};
use rp_base::NoMemory;
use sqlite_items::{Boxed, Items};
use std::alloc::Global;
use table_rows::table_of as rows_of;

fn call_of(
    alloc: Global,
    c: &P4Call,
    sc: Scope<'_>,
    locals: &[P4Local],
) -> Result<Boxed<Call>, NoMemory>
    ensures { IfOk result (λ x. IsCall (seen sc.entry) locals.now c.now x) }
{
    let args = codes_of(alloc, c.args.as_slice(), sc)?;
    let call = Call {
        action: action_number(locals, &c.name),
        args,
    };
    let made = Boxed::new(alloc, call)?;
    Ok(made)
}

fn calls_of(
    alloc: Global,
    es: &[P4Entry],
    sc: Scope<'_>,
    locals: &[P4Local],
) -> Result<Items<Boxed<Call>>, NoMemory>
    ensures { IfOk result (λ cs. AreCalls (seen sc.entry) locals.now es.now cs) }
{
    let mut cs = Items::new(alloc);
    for e in es {
        cs.push(call_of(alloc, &e.call, sc, locals)?)?;
    }
    Ok(cs)
}

fn default_of(
    alloc: Global,
    d: &Option<P4Default>,
    sc: Scope<'_>,
    locals: &[P4Local],
) -> Result<Option<Boxed<Call>>, NoMemory>
    ensures { IfOk result (λ x. IsDefault (seen sc.entry) locals.now d.now x) }
{
    match d {
        None => Ok(None),
        Some(d) => {
            let call = call_of(alloc, &d.call, sc, locals)?;
            Ok(Some(call))
        }
    }
}

fn keys_of(alloc: Global, keys: &[P4Key], sc: Scope<'_>) -> Result<Items<Boxed<Code>>, NoMemory>
    ensures { IfOk result (λ cs. (values : List ValueValue) → code_values cs values ≡ key_values keys.now (seen sc.entry) values) }
{
    let mut cs = Items::new(alloc);
    for k in keys {
        cs.push(code_of(alloc, k.expr.get(), sc)?)?;
    }
    Ok(cs)
}

fn entries_of(es: &Option<P4Entries>) -> &[P4Entry]
    ensures { result.now ≡ entries_of es.now }
{
    match es {
        None => &[],
        Some(es) => es.entries.as_slice(),
    }
}

// What is made of a table; `first` are values of all slots, whose widths the keys have.
fn table_of(
    alloc: Global,
    t: &P4Table,
    sc: Scope<'_>,
    locals: &[P4Local],
    first: &[Value],
) -> Result<Boxed<Table>, NoMemory>
    ensures { IfOk result (λ x. IsTable (seen sc.entry) locals.now t.now x) }
{
    let es = entries_of(&t.entries);
    let keys = keys_of(alloc, t.keys.keys.as_slice(), sc)?;
    let rows = Boxed::new(
        alloc,
        rows_of(alloc, sc, t.keys.keys.as_slice(), es, first)?,
    )?;
    let calls = calls_of(alloc, es, sc, locals)?;
    let default = default_of(alloc, &t.default, sc, locals)?;
    let table = Boxed::new(
        alloc,
        Table {
            keys,
            rows,
            calls,
            default,
        },
    )?;
    Ok(table)
}

fn local_of(
    alloc: Global,
    l: &P4Local,
    sc: Scope<'_>,
    locals: &[P4Local],
    first: &[Value],
) -> Result<Boxed<Local>, NoMemory>
    requires { Fit sc.registers.now }
    ensures { IfOk result (λ x. IsLocal (seen sc.entry) locals.now l.now x) }
{
    match l {
        P4Local::Action(a) => {
            let action = action_of(alloc, sc, a)?;
            let local = Boxed::new(alloc, Local::Action(action))?;
            Ok(local)
        }
        P4Local::Table(t) => {
            let table = table_of(alloc, t, sc, locals, first)?;
            let local = Boxed::new(alloc, Local::Table(table))?;
            Ok(local)
        }
        P4Local::Const(_) | P4Local::Var(_) | P4Local::Cell(_) => {
            let local = Boxed::new(alloc, Local::Other)?;
            Ok(local)
        }
    }
}

// What is made of a control's locals, each in its place.
fn each_of(
    alloc: Global,
    locals: &[P4Local],
    sc: Scope<'_>,
    first: &[Value],
) -> Result<Items<Boxed<Local>>, NoMemory>
    requires { Fit sc.registers.now }
    ensures { IfOk result (λ xs. AreLocals (seen sc.entry) locals.now locals.now xs) }
{
    let mut xs = Items::new(alloc);
    for l in locals {
        xs.push(local_of(alloc, l, sc, locals, first)?)?;
    }
    Ok(xs)
}

/// What is made of a control's locals: by their numbers they do what they do by name. `first` are values of all slots, whose widths the
/// keys of tables have.
///
/// # Errors
/// `NoMemory`.
pub fn locals_of(
    alloc: Global,
    locals: &[P4Local],
    sc: Scope<'_>,
    first: &[Value],
) -> Result<Items<Boxed<Local>>, NoMemory>
    requires { Fit sc.registers.now }
    ensures tied { IfOk result (λ xs. IsTied locals.now (call (seen sc.entry) locals.now) (apply (seen sc.entry) locals.now locals.now) (numbered_by xs)) }
    ensures ready { IfOk result (λ xs. AreReady xs) }
{
    let made = each_of(alloc, locals, sc, first)?;
    Ok(made)
}
