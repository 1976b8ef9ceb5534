//! Copies of statements that neither hold statements nor reach cells.
ghost use Rattle.std.specs.Prelude.{◌≡◌, IfOk};

use crate::expression::{expr_copy, exprs_copy, some_expr_copy};
use p4_ast::{P4Apply, P4Assign, P4Callstmt, P4Cond, P4Keystmt, P4Valid, P4Var};
use p4_scope::copy::{left_copy, name_copy, path_copy, type_copy};
use rp_base::NoMemory;
use std::alloc::Global;

/// An equal variable.
///
/// # Errors
/// `NoMemory`.
pub fn var_copy(alloc: Global, v: &P4Var) -> Result<P4Var, NoMemory>
    ensures { IfOk result (λ c. c ≡ v.now) }
{
    let name = name_copy(&v.name)?;
    let expr = some_expr_copy(alloc, &v.expr)?;
    Ok(P4Var {
        at: v.at,
        type_: type_copy(&v.type_)?,
        name,
        expr,
    })
}

/// An equal assignment.
///
/// # Errors
/// `NoMemory`.
pub fn assign_copy(alloc: Global, a: &P4Assign) -> Result<P4Assign, NoMemory>
    ensures { IfOk result (λ c. c ≡ a.now) }
{
    let expr = expr_copy(alloc, a.expr.get())?;
    Ok(P4Assign {
        at: a.at,
        left: left_copy(alloc, &a.left)?,
        expr,
    })
}

/// An equal key of a flow.
///
/// # Errors
/// `NoMemory`.
pub fn keystmt_copy(alloc: Global, k: &P4Keystmt) -> Result<P4Keystmt, NoMemory>
    ensures { IfOk result (λ c. c ≡ k.now) }
{
    Ok(P4Keystmt {
        at: k.at,
        expr: expr_copy(alloc, k.expr.get())?,
    })
}

/// An equal change of a header's validity.
///
/// # Errors
/// `NoMemory`.
pub fn valid_copy(alloc: Global, v: &P4Valid) -> Result<P4Valid, NoMemory>
    ensures { IfOk result (λ c. c ≡ v.now) }
{
    Ok(P4Valid {
        at: v.at,
        path: path_copy(alloc, &v.path)?,
        validity: v.validity,
    })
}

/// An equal application of a table.
///
/// # Errors
/// `NoMemory`.
pub fn apply_copy(a: &P4Apply) -> Result<P4Apply, NoMemory>
    ensures { IfOk result (λ c. c ≡ a.now) }
{
    Ok(P4Apply {
        at: a.at,
        name: name_copy(&a.name)?,
    })
}

/// An equal call of an action.
///
/// # Errors
/// `NoMemory`.
pub fn callstmt_copy(alloc: Global, x: &P4Callstmt) -> Result<P4Callstmt, NoMemory>
    ensures { IfOk result (λ c. c ≡ x.now) }
{
    let name = name_copy(&x.name)?;
    Ok(P4Callstmt {
        at: x.at,
        name,
        args: exprs_copy(alloc, x.args.as_slice())?,
    })
}

/// An equal condition.
///
/// # Errors
/// `NoMemory`.
pub fn cond_copy(alloc: Global, x: &P4Cond) -> Result<P4Cond, NoMemory>
    ensures { IfOk result (λ c. c ≡ x.now) }
{
    match x {
        P4Cond::Expr(e) => Ok(P4Cond::Expr(expr_copy(alloc, e.get())?)),
        P4Cond::Apply {
            at,
            negated,
            name,
            outcome,
        } => Ok(P4Cond::Apply {
            at: *at,
            negated: *negated,
            name: name_copy(name)?,
            outcome: *outcome,
        }),
    }
}
