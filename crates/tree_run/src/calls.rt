//! What calls and tables do.
ghost use Rattle.std.specs.Prelude.{◌≡◌, ℕ, List, Bool, IfOk, OnOk};
ghost use Rattle.app_data.specs.declared.value.Value.{Value as ValueValue};
ghost use Rattle.app_data.specs.declared.run.Run.{Run as RunValue};

use app_data::{Run, Value};
use p4_ast::P4Name;
use rp_base::NoMemory;

/// What calls of actions and applications of tables do to a run.
pub trait Calls {
    /// What calls rest on.
    ghost ready: { Self → Type 0 };

    /// The run after a call of the action of this name with these arguments.
    ghost called: { Self → List ℕ → List ValueValue → RunValue → RunValue };

    /// The run after the table of this name, and whether it was a hit.
    ghost applied: { Self → List ℕ → RunValue → RunValue × Bool };

    /// Calls the action of this name.
    ///
    /// # Errors
    /// `NoMemory`.
    fn call(&self, name: &P4Name, args: &[Value], run: &mut Run) -> Result<(), NoMemory>
        requires { ready self.now }
        ensures { OnOk result (run.new ≡ called self.now name.now.text args.now run.old) };

    /// Applies the table of this name, and tells whether it was a hit.
    ///
    /// # Errors
    /// `NoMemory`.
    fn apply(&self, name: &P4Name, run: &mut Run) -> Result<bool, NoMemory>
        requires { ready self.now }
        ensures { IfOk result (λ hit. (run.new, hit) ≡ applied self.now name.now.text run.old) };
}
