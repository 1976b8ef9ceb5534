//! The values of several expressions.
ghost use Rattle.std.specs.Prelude.{◌≡◌, IfOk};
ghost use Rattle.app_meaning.specs.Statements.{values_of};
ghost use Rattle.tree_eval.specs.Seen.{seen};

use app_data::{Scope, Value};
use p4_ast::P4Expr;
use rp_base::NoMemory;
use sqlite_items::Items;
use std::alloc::Global;
use tree_eval::eval;

/// The values of expressions, in their order.
///
/// # Errors
/// `NoMemory`.
pub fn values_of(
    alloc: Global,
    es: &[P4Expr],
    sc: Scope<'_>,
    values: &[Value],
) -> Result<Items<Value>, NoMemory>
    ensures { IfOk result (λ vs. vs ≡ values_of es.now (seen sc.entry) values.now) }
{
    let mut vs = Items::new(alloc);
    for e in es {
        vs.push(eval(e, sc, values))?;
    }
    Ok(vs)
}
