//! Expressions: one walk gives the first fault, what is known, and the expression with the widths of its literals.
ghost use Rattle.std.specs.Prelude.{◌≡◌, ◌^◌, nat_le, IfOk, Some, None};
ghost use Rattle.p4_typing.specs.Expressions.{typed_as, expected, alike, operated, bits_alone, chosen, operation, prefixed, cast_operand, cast, slice_form, sliced, form_by, form_of, literal_by, path_form, valued, type_form, typed, at_place};
ghost use Rattle.std.specs.Prelude.{ℕ};
ghost use Rattle.p4_scope.specs.Paths.{header_path};
ghost use Rattle.p4_typing.specs.declared.form.Form.TheVariants as form;
ghost use Rattle.p4_ast.specs.declared.expression.P4Expr.TheVariants as expr;

use crate::form::Form;
use crate::number::is_wide;
use crate::operand::{alike, operated};
use crate::part::{Operands, Typed};
use crate::taking::{as_bits, bits_alone, expected, failed, placeless, sized};
use p4_ast::{P4BinaryOp, P4Expr, P4Number, P4Path, P4Slice, P4Type, P4UnaryOp};
use p4_scope::copy::{path_copy, type_copy};
use p4_scope::refusal::{earlier, fault, fault_if};
use p4_scope::types::{is_width, type_place};
use p4_scope::{Kind, Scope};
use rp_base::{NoMemory, Refused, Why};
use sqlite_items::Boxed;
use std::alloc::Global;

#[inline(never)]
fn typed_as(
    alloc: Global,
    at: u64,
    fault: Option<Refused>,
    form: Form,
    expr: P4Expr,
) -> Result<Typed, NoMemory>
    ensures { IfOk result (λ t. t ≡ typed_as at fault form expr) }
{
    let expr = Boxed::new(alloc, expr)?;
    Ok(Typed {
        at,
        fault,
        form,
        expr,
    })
}

fn chosen(alloc: Global, at: u64, t: Typed, o: Operands) -> Result<Typed, NoMemory>
    ensures { IfOk result (λ r. r ≡ chosen at t o) }
{
    let Typed {
        fault: f,
        expr: test,
        ..
    } = t;
    let Operands {
        fault: g,
        form,
        left: yes,
        right: no,
    } = o;
    typed_as(
        alloc,
        at,
        earlier(f, g),
        form,
        P4Expr::Choice { at, test, yes, no },
    )
}

fn operation(alloc: Global, at: u64, op: P4BinaryOp, o: Operands) -> Result<Typed, NoMemory>
    ensures { IfOk result (λ r. r ≡ operation at op o) }
{
    let Operands {
        fault,
        form,
        left,
        right,
    } = o;
    let expr = P4Expr::Binary {
        at,
        op,
        left,
        right,
    };
    typed_as(alloc, at, fault, form, expr)
}

fn with_operator(
    alloc: Global,
    at: u64,
    op: P4UnaryOp,
    form: Form,
    t: Typed,
) -> Result<Typed, NoMemory>
    ensures { IfOk result (λ r. r ≡ typed_as at t.fault form (expr.Unary at op t.expr)) }
{
    let Typed {
        fault,
        expr: operand,
        ..
    } = t;
    typed_as(alloc, at, fault, form, P4Expr::Unary { at, op, operand })
}

#[inline(never)]
fn prefixed(alloc: Global, at: u64, op: P4UnaryOp, t: Typed) -> Result<Typed, NoMemory>
    ensures { IfOk result (λ r. r ≡ prefixed at op t) }
{
    match op {
        P4UnaryOp::Not => {
            let t = expected(alloc, Form::Bool, t)?;
            with_operator(alloc, at, op, Form::Bool, t)
        }
        _ => {
            let t = as_bits(t);
            with_operator(alloc, at, op, t.form, t)
        }
    }
}

// What is cast: bool and `bit<1>` to each other, bits to bits.
fn cast_operand(alloc: Global, to: Form, t: Typed) -> Result<Typed, NoMemory>
    ensures { IfOk result (λ r. r ≡ cast_operand to t.form t) }
{
    match (to, t.form) {
        (Form::Bits(w), Form::Open) => sized(alloc, w, t),
        (Form::Bits(w), Form::Bool) => {
            if w == 1 {
                Ok(t)
            } else {
                Ok(failed(Why::Kind, t))
            }
        }
        (Form::Bool, Form::Open) => placeless(alloc, t),
        (Form::Bool, Form::Bits(w)) => {
            if w == 1 {
                Ok(t)
            } else {
                Ok(failed(Why::Kind, t))
            }
        }
        (_, _) => Ok(t),
    }
}

#[inline(never)]
fn cast(
    alloc: Global,
    at: u64,
    t: &P4Type,
    f: Option<Refused>,
    to: Form,
    x: Typed,
) -> Result<Typed, NoMemory>
    ensures { IfOk result (λ r. r ≡ cast at t.now (f, to) x) }
{
    let Typed {
        fault: g,
        expr: operand,
        ..
    } = cast_operand(alloc, to, x)?;
    let type_ = type_copy(t)?;
    typed_as(
        alloc,
        at,
        earlier(f, g),
        to,
        P4Expr::Cast { at, type_, operand },
    )
}

/// Bits of a width, cut to a slice: the fault, and what is left. A slice whose numbers are in the wrong order fails whatever it is a
/// slice of.
pub fn slice_form(slice: P4Slice, form: Form) -> (Option<Refused>, Form)
    ensures { result ≡ slice_form slice form }
{
    match form {
        Form::Bits(w) => {
            if slice.low.value <= slice.high.value && slice.high.value < w as u128 {
                (
                    None,
                    Form::Bits((slice.high.value - slice.low.value + 1) as u8),
                )
            } else {
                (fault(Why::Width, slice.at), Form::Failed)
            }
        }
        _ => (
            fault_if(slice.high.value < slice.low.value, Why::Width, slice.at),
            Form::Failed,
        ),
    }
}

fn sliced(alloc: Global, at: u64, slice: P4Slice, t: Typed) -> Result<Typed, NoMemory>
    ensures { IfOk result (λ r. r ≡ sliced at slice t) }
{
    let Typed {
        fault: f,
        form,
        expr: operand,
        ..
    } = t;
    let (g, form) = slice_form(slice, form);
    typed_as(
        alloc,
        at,
        earlier(f, g),
        form,
        P4Expr::Slice { at, operand, slice },
    )
}

fn literal_form(n: P4Number) -> (Option<Refused>, Form)
    ensures { (at : ℕ) → typed_as at result.0 result.1 (expr.Number at n) ≡ literal_by n.width at n }
{
    match n.width {
        None => (None, Form::Open),
        Some(w) => {
            if is_width(w as u128) {
                (fault_if(is_wide(n.value, w), Why::Fit, n.at), Form::Bits(w))
            } else {
                (fault(Why::Width, n.at), Form::Failed)
            }
        }
    }
}

#[inline(never)]
fn literal(alloc: Global, at: u64, number: P4Number) -> Result<Typed, NoMemory>
    ensures { IfOk result (λ t. t ≡ literal_by number.width at number) }
{
    let (f, form) = literal_form(number);
    typed_as(alloc, at, f, form, P4Expr::Number { at, number })
}

#[inline(never)]
fn truth(alloc: Global, at: u64) -> Result<Typed, NoMemory>
    ensures { IfOk result (λ t. t ≡ typed_as at None form.Bool (expr.True at)) }
{
    typed_as(alloc, at, None, Form::Bool, P4Expr::True { at })
}

#[inline(never)]
fn falsehood(alloc: Global, at: u64) -> Result<Typed, NoMemory>
    ensures { IfOk result (λ t. t ≡ typed_as at None form.Bool (expr.False at)) }
{
    typed_as(alloc, at, None, Form::Bool, P4Expr::False { at })
}

/// What a value of this kind gives: a header or structure fails at this place.
pub fn form_by(at: u64, f: Option<Refused>, k: Kind) -> (Option<Refused>, Form)
    ensures { result ≡ form_by at f k }
{
    match k {
        Kind::Bits(w) => (f, Form::Bits(w)),
        Kind::Bool => (f, Form::Bool),
        Kind::Failed => (f, Form::Failed),
        _ => (earlier(f, fault(Why::Kind, at)), Form::Failed),
    }
}

/// What a value of this kind gives, where a header or structure is no value.
pub fn form_of(k: Kind) -> Form
    ensures { result ≡ form_of k }
{
    match k {
        Kind::Bits(w) => Form::Bits(w),
        Kind::Bool => Form::Bool,
        _ => Form::Failed,
    }
}

fn type_form(t: &P4Type, s: &Scope) -> (Option<Refused>, Form)
    ensures { result ≡ type_form t.now s.now }
{
    let (f, k) = s.type_kind(t);
    form_by(type_place(t), f, k)
}

#[inline(never)]
fn valued(alloc: Global, at: u64, path: &P4Path, s: &Scope) -> Result<Typed, NoMemory>
    ensures { IfOk result (λ t. t ≡ valued at path.now (path_form at path.now s.now)) }
{
    let (f, k) = s.path_kind(path);
    let (f, form) = form_by(at, f, k);
    let path = path_copy(alloc, path)?;
    typed_as(alloc, at, f, form, P4Expr::Path { at, path })
}

#[inline(never)]
fn validity(alloc: Global, at: u64, path: &P4Path, s: &Scope) -> Result<Typed, NoMemory>
    ensures { IfOk result (λ t. t ≡ typed_as at (header_path path.now s.now) form.Bool (expr.IsValid at path.now)) }
{
    let f = s.header_path(path);
    let path = path_copy(alloc, path)?;
    typed_as(alloc, at, f, Form::Bool, P4Expr::IsValid { at, path })
}

#[inline(never)]
fn choice(alloc: Global, at: u64, t: Typed, l: Typed, r: Typed) -> Result<Typed, NoMemory>
    ensures { IfOk result (λ x. x ≡ chosen at (expected form.Bool t) (alike l r)) }
{
    let o = alike(alloc, l, r)?;
    let t = expected(alloc, Form::Bool, t)?;
    chosen(alloc, at, t, o)
}

#[inline(never)]
fn binary(alloc: Global, at: u64, op: P4BinaryOp, l: Typed, r: Typed) -> Result<Typed, NoMemory>
    ensures { IfOk result (λ x. x ≡ operation at op (operated op at l r)) }
{
    let o = operated(alloc, op, at, l, r)?;
    operation(alloc, at, op, o)
}

#[inline(never)]
fn cut(alloc: Global, at: u64, slice: P4Slice, t: Typed) -> Result<Typed, NoMemory>
    ensures { IfOk result (λ x. x ≡ sliced at slice (bits_alone t)) }
{
    let t = bits_alone(alloc, t)?;
    sliced(alloc, at, slice, t)
}

/// An expression behind its checks. What isn't the walk itself stands in functions of its own, so that the stack grows little.
///
/// # Errors
/// `NoMemory`.
pub fn typed(alloc: Global, e: &P4Expr, s: &Scope) -> Result<Typed, NoMemory>
    ensures { IfOk result (λ t. t ≡ typed e.now s.now) }
{
    match e {
        P4Expr::Choice { at, test, yes, no } => {
            let t = typed(alloc, test.get(), s)?;
            let l = typed(alloc, yes.get(), s)?;
            let r = typed(alloc, no.get(), s)?;
            choice(alloc, *at, t, l, r)
        }
        P4Expr::Binary {
            at,
            op,
            left,
            right,
        } => {
            let l = typed(alloc, left.get(), s)?;
            let r = typed(alloc, right.get(), s)?;
            binary(alloc, *at, *op, l, r)
        }
        P4Expr::Unary { at, op, operand } => {
            let t = typed(alloc, operand.get(), s)?;
            prefixed(alloc, *at, *op, t)
        }
        P4Expr::Cast { at, type_, operand } => {
            let (f, to) = type_form(type_, s);
            let t = typed(alloc, operand.get(), s)?;
            cast(alloc, *at, type_, f, to, t)
        }
        P4Expr::Slice { at, operand, slice } => {
            let t = typed(alloc, operand.get(), s)?;
            cut(alloc, *at, *slice, t)
        }
        P4Expr::Number { at, number } => literal(alloc, *at, *number),
        P4Expr::True { at } => truth(alloc, *at),
        P4Expr::False { at } => falsehood(alloc, *at),
        P4Expr::Path { at, path } => valued(alloc, *at, path, s),
        P4Expr::IsValid { at, path } => validity(alloc, *at, path, s),
    }
}

/// An expression at a place that asks for this.
///
/// # Errors
/// `NoMemory`.
pub fn at_place(alloc: Global, wanted: Form, e: &P4Expr, s: &Scope) -> Result<Typed, NoMemory>
    ensures { IfOk result (λ t. t ≡ at_place wanted e.now s.now) }
{
    let t = typed(alloc, e, s)?;
    expected(alloc, wanted, t)
}
