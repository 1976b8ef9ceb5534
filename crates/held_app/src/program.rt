//! A rewritten program that is ready to run.
ghost use Rattle.std.specs.Prelude.{◌≡◌};
ghost use Rattle.p4_check.specs.Checking.{IsRewritten};
ghost use Rattle.tree_scope.specs.Scopes.{scopes_of};

use p4_check::Checked;
use std::alloc::Global;
use tree_scope::Scopes;

/// A rewritten program with what its names stand for.
#[derive(Drop)]
pub struct HeldApp {
    pub(crate) alloc: Global,
    pub(crate) program: Checked,
    pub(crate) scopes: Scopes,
    ghost rewritten: { ∥ IsRewritten program.tree program.cells ∥₁ },
    ghost scoped: { ∥ scopes ≡ scopes_of program.tree program.cells ∥₁ },
}
