//! What calls and tables do in the ingress control.
ghost use Rattle.std.specs.Prelude.{◌≡◌};
ghost use Rattle.app_meaning.specs.Actions.{call, apply};
ghost use Rattle.tree_cells.specs.Fit.{Fit};
ghost use Rattle.tree_eval.specs.Seen.{seen};

use crate::action::call;
use crate::table::apply;
use app_data::{Run, Scope, Value};
use p4_ast::{P4Local, P4Name};
use rp_base::NoMemory;
use std::alloc::Global;
use tree_run::Calls;

/// The ingress control: its scope and what is declared in it.
#[derive(Clone, Copy, Debug)]
pub struct Control<'a> {
    pub alloc: Global,
    pub scope: Scope<'a>,
    pub locals: &'a [P4Local],
}

impl<'a> Calls for Control<'a> {
    ghost ready = { λ c. Fit c.scope.registers.now };

    ghost called = { λ c. call (seen c.scope) c.locals.now };

    ghost applied = { λ c. apply (seen c.scope) c.locals.now c.locals.now };

    fn call(&self, name: &P4Name, args: &[Value], run: &mut Run) -> Result<(), NoMemory> {
        call(self.alloc, self.scope, self.locals, name, args, run)
    }

    fn apply(&self, name: &P4Name, run: &mut Run) -> Result<bool, NoMemory> {
        apply(self.alloc, self.scope, self.locals, self.locals, name, run)
    }
}
