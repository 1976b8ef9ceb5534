//! The ingress control's run of a packet that was parsed.
ghost use Rattle.std.specs.Prelude.{◌≡◌, ◌∷◌, [], IfOk};
ghost use Rattle.app_meaning.specs.Programs.{run_locals, run_control};
ghost use Rattle.tree_cells.specs.Fit.{Fit};
ghost use Rattle.tree_eval.specs.Seen.{seen};

use crate::control::Control;
use app_data::{Run, Scope, Value};
use p4_ast::{P4Local, P4Program};
use rp_app::Delta;
use rp_base::{Cells, NoMemory};
use sqlite_items::Items;
use std::alloc::Global;
use tree_assign::declare;
use tree_run::block;

// The control's variables get their first values.
fn run_locals(ls: &[P4Local], sc: Scope<'_>, values: &mut Items<Value>)
    ensures { values.new ≡ run_locals ls.now (seen sc.entry) values.old }
{
    match ls {
        [] => {}
        [l, rest @ ..] => {
            first_value(l, sc, values);
            run_locals(rest, sc, values);
        }
    }
}

// A variable gets its first value; any other local changes nothing.
fn first_value(l: &P4Local, sc: Scope<'_>, values: &mut Items<Value>)
    ensures { values.new ≡ run_locals (l.now ∷ []) (seen sc.entry) values.old }
{
    if let P4Local::Var(v) = l {
        declare(sc, v, values);
    }
}

/// The ingress control's run of what was parsed, in its scope and over the cells of the packet's flow: its variables get their first
/// values, and its block runs. What bits the parser left plays no part.
///
/// # Errors
/// `NoMemory`.
pub fn run_control(
    alloc: Global,
    p: &P4Program,
    sc: Scope<'_>,
    values: Items<Value>,
    cells: Cells,
) -> Result<Run, NoMemory>
    requires { Fit sc.registers.now }
    ensures { IfOk result (λ run. run ≡ run_control p.now (seen sc.entry) cells (record { values = values; left = [] })) }
{
    let locals = p.ingress.locals.as_slice();
    let mut run = Run {
        values,
        cells,
        delta: Delta::new(alloc),
        key: None,
    };
    run_locals(locals, sc, &mut run.values);
    let control = Control {
        alloc,
        scope: sc,
        locals,
    };
    block(alloc, &p.ingress.block, sc, &control, &mut run)?;
    Ok(run)
}
