//! What is made of a control.
ghost use Rattle.std.specs.Prelude.{◌≡◌, ◌++◌, List, IfOk, OnOk, map};
ghost use Rattle.app_data.specs.declared.run.Run.{Run as RunValue};
ghost use Rattle.app_data.specs.declared.value.Value.{Value as ValueValue};
ghost use Rattle.app_meaning.specs.Actions.{control_context};
ghost use Rattle.app_meaning.specs.Programs.{run_locals};
ghost use Rattle.app_meaning.specs.Statements.{with_values, run_block};
ghost use Rattle.exec_code.specs.Steps.{Numbered, run_step, one_by_one};
ghost use Rattle.exec_control.specs.Controls.{control_at, first_value};
ghost use Rattle.exec_tables.specs.Ready.{AreReady};
ghost use Rattle.tree_cells.specs.Fit.{Fit};
ghost use Rattle.tree_eval.specs.Seen.{seen};

use app_data::{Scope, Value};
use exec_code::Step;
use exec_steps::{block_of, declare_of};
use exec_tables::{Local, locals_of};
use p4_ast::{P4Block, P4Local};
use rp_base::NoMemory;
use sqlite_items::{Boxed, Items};
use std::alloc::Global;

/// A control: the first values of its variables, what its block does, and its actions and tables.
#[derive(Drop)]
pub struct Control {
    pub first: Items<Boxed<Step>>,
    pub body: Boxed<Step>,
    pub locals: Items<Boxed<Local>>,
}

// The step that gives a variable its first value goes behind others; nothing for a local of another sort.
#[tactic(auto, using(crate::proofs::Firsts::one_more))]
fn push_first(
    alloc: Global,
    l: &P4Local,
    sc: Scope<'_>,
    steps: &mut Items<Boxed<Step>>,
) -> Result<(), NoMemory>
    ensures { OnOk result ((ns : Numbered) (run : RunValue) → one_by_one (map run_step steps.new) ns run ≡ first_value l.now (seen sc.entry) (one_by_one (map run_step steps.old) ns run)) }
{
    match l {
        P4Local::Var(v) => {
            let step = declare_of(alloc, v, sc)?;
            steps.push(step)?;
            Ok(())
        }
        P4Local::Const(_) | P4Local::Cell(_) | P4Local::Action(_) | P4Local::Table(_) => Ok(()),
    }
}

// The steps that give the control's variables their first values.
fn first_of(alloc: Global, ls: &[P4Local], sc: Scope<'_>) -> Result<Items<Boxed<Step>>, NoMemory>
    ensures { IfOk result (λ steps. (ns : Numbered) (run : RunValue) → one_by_one (map run_step steps) ns run ≡ with_values run (run_locals ls.now (seen sc.entry) run.values)) }
{
    let mut steps = Items::new(alloc);
    for l in ls {
        push_first(alloc, l, sc, &mut steps)?;
    }
    Ok(steps)
}

/// What is made of a control; `first` are values of all slots, whose widths the keys of tables have.
///
/// # Errors
/// `NoMemory`.
pub fn control_of(
    alloc: Global,
    block: &P4Block,
    locals: &[P4Local],
    sc: Scope<'_>,
    first: &[Value],
) -> Result<Boxed<Control>, NoMemory>
    requires { Fit sc.registers.now }
    ensures does { IfOk result (λ c. (run : RunValue) → control_at c run ≡ run_block block.now (control_context (seen sc.entry) locals.now) (with_values run (run_locals locals.now (seen sc.entry) run.values))) }
    ensures ready { IfOk result (λ c. AreReady c.locals) }
{
    let steps = first_of(alloc, locals, sc)?;
    let body = block_of(alloc, block, sc, locals)?;
    let made = locals_of(alloc, locals, sc, first)?;
    let control = Boxed::new(
        alloc,
        Control {
            first: steps,
            body,
            locals: made,
        },
    )?;
    Ok(control)
}
