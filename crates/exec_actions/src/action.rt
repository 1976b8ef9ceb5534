//! Actions: the slots of their parameters, and a step.
ghost use Rattle.std.specs.Prelude.{◌≡◌, ◌∷◌, [], List, map, IfOk, OnOk};
ghost use Rattle.app_data.specs.declared.run.Run.{Run as RunValue};
ghost use Rattle.app_data.specs.declared.value.Value.{Value as ValueValue};
ghost use Rattle.app_meaning.specs.Actions.{inside, run_action};
ghost use Rattle.exec_actions.specs.Acting.{pass_at, param_of, run_action_at};
ghost use Rattle.tree_cells.specs.Fit.{Fit};
ghost use Rattle.tree_eval.specs.Seen.{seen};

use crate::idle::Idle;
use app_data::{Run, Scope, Value};
use exec_code::Step;
use exec_steps::{block_of, step};
use p4_ast::{P4Action, P4Field};
use rp_base::{Bytes, NoMemory};
use sqlite_items::{Boxed, Items};
use std::alloc::Global;
use tree_assign::set_slot;
use tree_eval::{slot_of_name, type_width};
use value_ops::cut;

/// A parameter: its slot, if it has one, and its width.
#[derive(Clone, Copy)]
pub struct Param {
    pub slot: Option<usize>,
    pub width: u8,
}

/// An action: its parameters, and what it does.
#[derive(Drop)]
pub struct Action {
    pub params: Items<Param>,
    pub body: Boxed<Step>,
}

// The scope of an action's body.
fn inside<'a>(sc: Scope<'a>, name: &'a Bytes) -> Scope<'a>
    ensures scope { seen result ≡ inside (seen sc.entry) name.now }
    ensures registers { result.registers.now ≡ sc.entry.registers.now }
{
    Scope {
        types: sc.types,
        constants: sc.constants,
        registers: sc.registers,
        slots: sc.slots,
        own: Some(name),
    }
}

fn params_of(alloc: Global, sc: Scope<'_>, params: &[P4Field]) -> Result<Items<Param>, NoMemory>
    ensures { IfOk result (λ ps. ps ≡ map (param_of (seen sc.entry)) params.now) }
{
    let mut ps = Items::new(alloc);
    for p in params {
        ps.push(Param {
            slot: slot_of_name(sc, &p.name),
            width: type_width(sc.types, &p.type_),
        })?;
    }
    Ok(ps)
}

/// What is made of an action.
///
/// # Errors
/// `NoMemory`.
pub fn action_of(alloc: Global, sc: Scope<'_>, a: &P4Action) -> Result<Boxed<Action>, NoMemory>
    requires { Fit sc.registers.now }
    ensures { IfOk result (λ x. (args : List ValueValue) (run : RunValue) → run_action_at x args run ≡ run_action (seen sc.entry) a.now args run) }
{
    let inner = inside(sc, &a.name.text);
    let params = params_of(alloc, inner, a.params.as_slice())?;
    let body = block_of(alloc, &a.block, inner, &[])?;
    let action = Boxed::new(alloc, Action { params, body })?;
    Ok(action)
}

// Each parameter gets its argument.
fn pass(params: &[Param], args: &[Value], values: &mut Items<Value>)
    ensures { values.new ≡ pass_at params.now args.now values.old }
{
    match params {
        [] => {}
        [p, more @ ..] => match args {
            [] => {}
            [v, others @ ..] => {
                set_slot(values, p.slot, cut(p.width, v.number));
                pass(more, others, values);
            }
        },
    }
}

/// The run goes through an action with these arguments.
///
/// # Errors
/// `NoMemory`.
pub fn run_action(alloc: Global, a: &Action, args: &[Value], run: &mut Run) -> Result<(), NoMemory>
    ensures { OnOk result (run.new ≡ run_action_at a.now args.now run.old) }
{
    pass(a.params.as_slice(), args, &mut run.values);
    step(alloc, a.body.get(), &Idle, run)
}
