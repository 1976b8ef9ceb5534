//! Runs of a control.
ghost use Rattle.std.specs.Prelude.{◌≡◌, OnOk, map};
ghost use Rattle.exec_code.specs.Steps.{run_step, one_by_one};
ghost use Rattle.exec_control.specs.Controls.{control_at};
ghost use Rattle.exec_tables.specs.Applying.{numbered_by};
ghost use Rattle.exec_tables.specs.Ready.{AreReady};

use crate::made::Control;
use app_data::Run;
use exec_code::Step;
use exec_steps::step;
use exec_tables::Locals;
use rp_base::NoMemory;
use sqlite_items::Boxed;
use std::alloc::Global;

fn steps(
    alloc: Global,
    xs: &[Boxed<Step>],
    locals: &Locals<'_>,
    run: &mut Run,
) -> Result<(), NoMemory>
    requires { AreReady locals.now.items.now }
    ensures { OnOk result (run.new ≡ one_by_one (map run_step xs.now) (numbered_by locals.now.items.now) run.old) }
{
    for x in xs {
        step(alloc, x.get(), locals, run)?;
    }
    Ok(())
}

/// The run goes through a control whose tables can be searched.
///
/// # Errors
/// `NoMemory`.
pub fn run_control(alloc: Global, c: &Control, run: &mut Run) -> Result<(), NoMemory>
    requires { AreReady c.now.locals }
    ensures { OnOk result (run.new ≡ control_at c.now run.old) }
{
    let locals = Locals {
        alloc,
        items: c.locals.as_slice(),
    };
    steps(alloc, c.first.as_slice(), &locals, run)?;
    step(alloc, c.body.get(), &locals, run)
}
