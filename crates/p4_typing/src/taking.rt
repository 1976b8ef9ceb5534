//! Literals without a width, and expressions of them: they take the width of their place.
ghost use Rattle.std.specs.Prelude.{◌≡◌, IfOk};
ghost use Rattle.std.specs.Prelude.{ℕ, None};
ghost use Rattle.p4_ast.specs.declared.expression.P4Expr.TheVariants as expr;
ghost use Rattle.p4_typing.specs.Expressions.{number_taken, taken, typed_as, failed, sized, placeless, expected, as_bits, bits_alone, shift_side};

use crate::form::Form;
use crate::number::is_wide;
use crate::part::Typed;
use p4_ast::{P4Expr, P4Number};
use p4_scope::refusal::{earlier, fault, fault_if};
use rp_base::{NoMemory, Refused, Why};
use sqlite_items::Boxed;
use std::alloc::Global;

// A literal, with the width that is written or that it takes.
fn number_taken(n: P4Number, w: Option<u8>) -> (Option<Refused>, P4Number)
    ensures { (at : ℕ) → (result.0, expr.Number at result.1) ≡ number_taken at n n.width w }
{
    match (n.width, w) {
        (Some(_), _) => (None, n),
        (None, None) => (fault(Why::Width, n.at), n),
        (None, Some(w)) => (
            fault_if(is_wide(n.value, w), Why::Fit, n.at),
            P4Number {
                at: n.at,
                value: n.value,
                width: Some(w),
            },
        ),
    }
}

/// An expression without a width of its own takes this width, or finds none.
///
/// # Errors
/// `NoMemory`.
pub fn taken(
    alloc: Global,
    e: Boxed<P4Expr>,
    w: Option<u8>,
) -> Result<(Option<Refused>, Boxed<P4Expr>), NoMemory>
    ensures { IfOk result (λ r. r ≡ taken e w) }
{
    match e.into_inner() {
        P4Expr::Choice { at, test, yes, no } => {
            let (f, yes) = taken(alloc, yes, w)?;
            let (g, no) = taken(alloc, no, w)?;
            let e = Boxed::new(alloc, P4Expr::Choice { at, test, yes, no })?;
            Ok((earlier(f, g), e))
        }
        P4Expr::Binary {
            at,
            op,
            left,
            right,
        } => {
            let (f, left) = taken(alloc, left, w)?;
            let (g, right) = taken(alloc, right, w)?;
            let e = P4Expr::Binary {
                at,
                op,
                left,
                right,
            };
            Ok((earlier(f, g), Boxed::new(alloc, e)?))
        }
        P4Expr::Unary { at, op, operand } => {
            let (f, operand) = taken(alloc, operand, w)?;
            let e = Boxed::new(alloc, P4Expr::Unary { at, op, operand })?;
            Ok((f, e))
        }
        P4Expr::Number { at, number } => {
            let (f, number) = number_taken(number, w);
            Ok((f, Boxed::new(alloc, P4Expr::Number { at, number })?))
        }
        P4Expr::Cast { at, type_, operand } => Ok((
            None,
            Boxed::new(alloc, P4Expr::Cast { at, type_, operand })?,
        )),
        P4Expr::Slice { at, operand, slice } => Ok((
            None,
            Boxed::new(alloc, P4Expr::Slice { at, operand, slice })?,
        )),
        P4Expr::True { at } => Ok((None, Boxed::new(alloc, P4Expr::True { at })?)),
        P4Expr::False { at } => Ok((None, Boxed::new(alloc, P4Expr::False { at })?)),
        P4Expr::Path { at, path } => Ok((None, Boxed::new(alloc, P4Expr::Path { at, path })?)),
        P4Expr::IsValid { at, path } => Ok((
            None,
            Boxed::new(alloc, P4Expr::IsValid { at, path })?,
        )),
    }
}

/// It fails at its place.
pub fn failed(why: Why, t: Typed) -> Typed
    ensures { result ≡ failed why t }
{
    let Typed {
        at,
        fault: f,
        form: _,
        expr,
    } = t;
    Typed {
        at,
        fault: earlier(f, fault(why, at)),
        form: Form::Failed,
        expr,
    }
}

/// It takes this width.
///
/// # Errors
/// `NoMemory`.
pub fn sized(alloc: Global, w: u8, t: Typed) -> Result<Typed, NoMemory>
    ensures { IfOk result (λ r. r ≡ sized w t) }
{
    let Typed {
        at,
        fault: f,
        form: _,
        expr,
    } = t;
    let (g, expr) = taken(alloc, expr, Some(w))?;
    Ok(Typed {
        at,
        fault: earlier(f, g),
        form: Form::Bits(w),
        expr,
    })
}

/// Its place gives no width.
///
/// # Errors
/// `NoMemory`.
pub fn placeless(alloc: Global, t: Typed) -> Result<Typed, NoMemory>
    ensures { IfOk result (λ r. r ≡ placeless t) }
{
    let Typed {
        at,
        fault: f,
        form: _,
        expr,
    } = t;
    let (g, expr) = taken(alloc, expr, None)?;
    Ok(Typed {
        at,
        fault: earlier(f, g),
        form: Form::Failed,
        expr,
    })
}

/// An expression at a place that asks for this.
///
/// # Errors
/// `NoMemory`.
pub fn expected(alloc: Global, wanted: Form, t: Typed) -> Result<Typed, NoMemory>
    ensures { IfOk result (λ r. r ≡ expected wanted t) }
{
    match (wanted, t.form) {
        (Form::Failed, _) => Ok(t),
        (_, Form::Failed) => Ok(t),
        (Form::Bits(w), Form::Open) => sized(alloc, w, t),
        (Form::Bits(w), Form::Bits(v)) => {
            if w == v {
                Ok(t)
            } else {
                Ok(failed(Why::Width, t))
            }
        }
        (Form::Bool, Form::Bool) => Ok(t),
        (_, _) => Ok(failed(Why::Kind, t)),
    }
}

/// An operand that must be bits.
pub fn as_bits(t: Typed) -> Typed
    ensures { result ≡ as_bits t }
{
    match t.form {
        Form::Bool => failed(Why::Kind, t),
        _ => t,
    }
}

/// Bits at a place that gives no width.
///
/// # Errors
/// `NoMemory`.
pub fn bits_alone(alloc: Global, t: Typed) -> Result<Typed, NoMemory>
    ensures { IfOk result (λ r. r ≡ bits_alone t) }
{
    match t.form {
        Form::Bool => Ok(failed(Why::Kind, t)),
        Form::Open => placeless(alloc, t),
        _ => Ok(t),
    }
}

/// A side of a shift: `bit<8>` where it has no width of its own.
///
/// # Errors
/// `NoMemory`.
pub fn shift_side(alloc: Global, t: Typed) -> Result<Typed, NoMemory>
    ensures { IfOk result (λ r. r ≡ shift_side t) }
{
    match t.form {
        Form::Open => sized(alloc, 8, t),
        Form::Bool => Ok(failed(Why::Kind, t)),
        _ => Ok(t),
    }
}
