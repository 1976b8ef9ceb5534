//! What is called within an action: nothing.
ghost use Rattle.std.specs.Prelude.{◌≡◌, false};

use app_data::{Run, Value};
use exec_steps::Actions;
use rp_base::NoMemory;

/// Within an action no other one is called, and no table is applied.
pub struct Idle;

impl Actions for Idle {
    ghost ready = { λ _. Unit };

    ghost called = { λ _ action args run. run };

    ghost applied = { λ _ table run. (run, false) };

    fn call(
        &self,
        _action: Option<usize>,
        _args: &[Value],
        _run: &mut Run,
    ) -> Result<(), NoMemory> {
        Ok(())
    }

    fn apply(&self, _table: Option<usize>, _run: &mut Run) -> Result<bool, NoMemory> {
        Ok(false)
    }
}
