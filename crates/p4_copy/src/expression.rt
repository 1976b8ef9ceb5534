//! Copies of expressions.
ghost use Rattle.std.specs.Prelude.{◌≡◌, IfOk};

use p4_ast::{P4Expr, P4Type};
use p4_scope::copy::{path_copy, type_copy};
use rp_base::NoMemory;
use sqlite_items::{Boxed, Items};
use std::alloc::Global;

/// The expression in a box.
///
/// # Errors
/// `NoMemory`.
pub fn boxed(alloc: Global, e: P4Expr) -> Result<Boxed<P4Expr>, NoMemory>
    ensures { IfOk result (λ b. b ≡ e) }
{
    Ok(Boxed::new(alloc, e)?)
}

/// An equal expression.
///
/// # Errors
/// `NoMemory`.
pub fn expr_copy(alloc: Global, e: &P4Expr) -> Result<Boxed<P4Expr>, NoMemory>
    ensures { IfOk result (λ c. c ≡ e.now) }
{
    match e {
        P4Expr::Choice { at, test, yes, no } => {
            let test = expr_copy(alloc, test.get())?;
            let yes = expr_copy(alloc, yes.get())?;
            let no = expr_copy(alloc, no.get())?;
            let at = *at;
            boxed(alloc, P4Expr::Choice { at, test, yes, no })
        }
        P4Expr::Binary {
            at,
            op,
            left,
            right,
        } => {
            let left = expr_copy(alloc, left.get())?;
            let right = expr_copy(alloc, right.get())?;
            let (at, op) = (*at, *op);
            boxed(
                alloc,
                P4Expr::Binary {
                    at,
                    op,
                    left,
                    right,
                },
            )
        }
        P4Expr::Unary { at, op, operand } => {
            let operand = expr_copy(alloc, operand.get())?;
            let (at, op) = (*at, *op);
            boxed(alloc, P4Expr::Unary { at, op, operand })
        }
        P4Expr::Cast { at, type_, operand } => {
            let operand = expr_copy(alloc, operand.get())?;
            let type_ = type_copy(type_)?;
            let at = *at;
            boxed(alloc, P4Expr::Cast { at, type_, operand })
        }
        P4Expr::Slice { at, operand, slice } => {
            let operand = expr_copy(alloc, operand.get())?;
            let (at, slice) = (*at, *slice);
            boxed(alloc, P4Expr::Slice { at, operand, slice })
        }
        P4Expr::Number { at, number } => {
            let (at, number) = (*at, *number);
            boxed(alloc, P4Expr::Number { at, number })
        }
        P4Expr::True { at } => boxed(alloc, P4Expr::True { at: *at }),
        P4Expr::False { at } => boxed(alloc, P4Expr::False { at: *at }),
        P4Expr::Path { at, path } => {
            let path = path_copy(alloc, path)?;
            boxed(alloc, P4Expr::Path { at: *at, path })
        }
        P4Expr::IsValid { at, path } => {
            let path = path_copy(alloc, path)?;
            boxed(alloc, P4Expr::IsValid { at: *at, path })
        }
    }
}

/// An equal expression, if there is one.
///
/// # Errors
/// `NoMemory`.
pub fn some_expr_copy(
    alloc: Global,
    e: &Option<Boxed<P4Expr>>,
) -> Result<Option<Boxed<P4Expr>>, NoMemory>
    ensures { IfOk result (λ c. c ≡ e.now) }
{
    match e {
        None => Ok(None),
        Some(e) => Ok(Some(expr_copy(alloc, e.get())?)),
    }
}

/// Equal expressions.
///
/// # Errors
/// `NoMemory`.
pub fn exprs_copy(alloc: Global, es: &[P4Expr]) -> Result<Items<P4Expr>, NoMemory>
    ensures { IfOk result (λ c. c ≡ es.now) }
{
    let mut copies = Items::new(alloc);
    for e in es {
        let e = expr_copy(alloc, e)?;
        copies.push(e.into_inner())?;
    }
    Ok(copies)
}

/// An equal type, in a box.
///
/// # Errors
/// `NoMemory`.
pub fn boxed_type_copy(alloc: Global, t: &P4Type) -> Result<Boxed<P4Type>, NoMemory>
    ensures { IfOk result (λ c. c ≡ t.now) }
{
    let t = type_copy(t)?;
    Ok(Boxed::new(alloc, t)?)
}
