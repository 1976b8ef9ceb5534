//! Calls of actions.
ghost use Rattle.std.specs.Prelude.{◌≡◌, false, OnOk};
ghost use Rattle.app_meaning.specs.Actions.{inside, pass, run_action, call};
ghost use Rattle.tree_cells.specs.Fit.{Fit};
ghost use Rattle.tree_eval.specs.Seen.{seen};

use app_data::{Run, Scope, Value};
use p4_ast::{P4Action, P4Field, P4Local, P4Name};
use rp_base::{Bytes, NoMemory};
use sqlite_items::Items;
use std::alloc::Global;
use tree_assign::set_slot;
use tree_eval::{slot_of_name, type_width};
use tree_run::{Calls, block};
use value_ops::cut;

// Within an action no other one is called, and no table is applied.
struct NoCalls;

impl Calls for NoCalls {
    ghost ready = { λ _. Unit };

    ghost called = { λ _ name args run. run };

    ghost applied = { λ _ name run. (run, false) };

    fn call(&self, _name: &P4Name, _args: &[Value], _run: &mut Run) -> Result<(), NoMemory> {
        Ok(())
    }

    fn apply(&self, _name: &P4Name, _run: &mut Run) -> Result<bool, NoMemory> {
        Ok(false)
    }
}

// The scope of an action's body.
fn inside<'a>(sc: Scope<'a>, name: &'a Bytes) -> Scope<'a>
    ensures { seen result ≡ inside (seen sc.entry) name.now }
{
    Scope {
        types: sc.types,
        constants: sc.constants,
        registers: sc.registers,
        slots: sc.slots,
        own: Some(name),
    }
}

// Each parameter gets its argument.
fn pass(sc: Scope<'_>, params: &[P4Field], args: &[Value], values: &mut Items<Value>)
    ensures { values.new ≡ pass (seen sc.entry) params.now args.now values.old }
{
    match params {
        [] => {}
        [p, more @ ..] => match args {
            [] => {}
            [v, others @ ..] => {
                let value = cut(type_width(sc.types, &p.type_), v.number);
                set_slot(values, slot_of_name(sc, &p.name), value);
                pass(sc, more, others, values);
            }
        },
    }
}

fn run_action(
    alloc: Global,
    sc: Scope<'_>,
    a: &P4Action,
    args: &[Value],
    run: &mut Run,
) -> Result<(), NoMemory>
    requires { Fit sc.registers.now }
    ensures { OnOk result (run.new ≡ run_action (seen sc.entry) a.now args.now run.old) }
{
    let inner = inside(sc, &a.name.text);
    pass(inner, a.params.as_slice(), args, &mut run.values);
    block(alloc, &a.block, inner, &NoCalls, run)
}

/// The action of this name among the locals `ls` is called; `NoAction` and names that aren't declared do nothing.
///
/// # Errors
/// `NoMemory`.
pub fn call(
    alloc: Global,
    sc: Scope<'_>,
    ls: &[P4Local],
    name: &P4Name,
    args: &[Value],
    run: &mut Run,
) -> Result<(), NoMemory>
    requires { Fit sc.registers.now }
    ensures { OnOk result (run.new ≡ call (seen sc.entry) ls.now name.now.text args.now run.old) }
{
    match ls {
        [] => Ok(()),
        [l, rest @ ..] => match l {
            P4Local::Action(a) => {
                if a.name.text.as_slice() == name.text.as_slice() {
                    run_action(alloc, sc, a, args, run)
                } else {
                    call(alloc, sc, rest, name, args, run)
                }
            }
            P4Local::Const(_) | P4Local::Var(_) | P4Local::Cell(_) | P4Local::Table(_) => {
                call(alloc, sc, rest, name, args, run)
            }
        },
    }
}
