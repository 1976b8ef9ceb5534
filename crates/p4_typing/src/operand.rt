//! Operands, and what their operations give.
ghost use Rattle.std.specs.Prelude.{◌≡◌, IfOk};
ghost use Rattle.p4_typing.specs.Expressions.{operands, alike, compared, joined, bools, operated, shifted, shift_side, bits_alone};

use crate::form::Form;
use crate::part::{Operands, Typed};
use crate::taking::{as_bits, bits_alone, expected, failed, placeless, shift_side, sized};
use p4_ast::P4BinaryOp;
use p4_scope::refusal::{earlier, fault};
use rp_base::{NoMemory, Why};
use std::alloc::Global;

fn operands(form: Form, l: Typed, r: Typed) -> Operands
    ensures { result ≡ operands form l r }
{
    let Typed {
        fault: f,
        expr: left,
        ..
    } = l;
    let Typed {
        fault: g,
        expr: right,
        ..
    } = r;
    Operands {
        fault: earlier(f, g),
        form,
        left,
        right,
    }
}

/// Two operands of one width or of one kind: a literal takes the width of the other operand.
///
/// # Errors
/// `NoMemory`.
pub fn alike(alloc: Global, l: Typed, r: Typed) -> Result<Operands, NoMemory>
    ensures { IfOk result (λ o. o ≡ alike l r) }
{
    match (l.form, r.form) {
        (Form::Failed, _) => Ok(operands(Form::Failed, l, r)),
        (_, Form::Failed) => Ok(operands(Form::Failed, l, r)),
        (Form::Bits(w), Form::Bits(v)) => {
            if w == v {
                Ok(operands(Form::Bits(w), l, r))
            } else {
                Ok(operands(Form::Failed, failed(Why::Width, l), r))
            }
        }
        (Form::Bits(w), Form::Open) => {
            let r = sized(alloc, w, r)?;
            Ok(operands(Form::Bits(w), l, r))
        }
        (Form::Open, Form::Bits(w)) => {
            let l = sized(alloc, w, l)?;
            Ok(operands(Form::Bits(w), l, r))
        }
        (Form::Open, Form::Open) => Ok(operands(Form::Open, l, r)),
        (Form::Bool, Form::Bool) => Ok(operands(Form::Bool, l, r)),
        (_, _) => Ok(operands(Form::Failed, failed(Why::Kind, l), r)),
    }
}

// Two literals that are compared have no place.
fn compared(alloc: Global, l: Typed, r: Typed) -> Result<Operands, NoMemory>
    ensures { IfOk result (λ o. o ≡ compared l r) }
{
    match (l.form, r.form) {
        (Form::Open, Form::Open) => {
            let l = placeless(alloc, l)?;
            let r = placeless(alloc, r)?;
            Ok(operands(Form::Bool, l, r))
        }
        (_, _) => {
            let Operands {
                fault,
                form: _,
                left,
                right,
            } = alike(alloc, l, r)?;
            Ok(Operands {
                fault,
                form: Form::Bool,
                left,
                right,
            })
        }
    }
}

// The left side's width is kept.
fn shifted(alloc: Global, l: Typed, r: Typed) -> Result<Operands, NoMemory>
    ensures { IfOk result (λ o. o ≡ shifted (shift_side l) (shift_side r)) }
{
    let l = shift_side(alloc, l)?;
    let r = shift_side(alloc, r)?;
    Ok(operands(l.form, l, r))
}

fn joined(at: u64, l: Typed, r: Typed) -> Operands
    ensures { result ≡ joined at l r }
{
    match (l.form, r.form) {
        (Form::Bits(w), Form::Bits(v)) => {
            if w as u16 + v as u16 <= 128 {
                operands(Form::Bits(w + v), l, r)
            } else {
                let Operands {
                    fault: f,
                    form,
                    left,
                    right,
                } = operands(Form::Failed, l, r);
                Operands {
                    fault: earlier(f, fault(Why::Width, at)),
                    form,
                    left,
                    right,
                }
            }
        }
        (_, _) => operands(Form::Failed, l, r),
    }
}

fn concatenated(alloc: Global, at: u64, l: Typed, r: Typed) -> Result<Operands, NoMemory>
    ensures { IfOk result (λ o. o ≡ joined at (bits_alone l) (bits_alone r)) }
{
    let l = bits_alone(alloc, l)?;
    let r = bits_alone(alloc, r)?;
    Ok(joined(at, l, r))
}

fn bools(alloc: Global, l: Typed, r: Typed) -> Result<Operands, NoMemory>
    ensures { IfOk result (λ o. o ≡ bools l r) }
{
    let l = expected(alloc, Form::Bool, l)?;
    let r = expected(alloc, Form::Bool, r)?;
    Ok(operands(Form::Bool, l, r))
}

/// Two operands of an operator.
///
/// # Errors
/// `NoMemory`.
pub fn operated(
    alloc: Global,
    op: P4BinaryOp,
    at: u64,
    l: Typed,
    r: Typed,
) -> Result<Operands, NoMemory>
    ensures { IfOk result (λ o. o ≡ operated op at l r) }
{
    match op {
        P4BinaryOp::Or => bools(alloc, l, r),
        P4BinaryOp::And => bools(alloc, l, r),
        P4BinaryOp::Equal => compared(alloc, l, r),
        P4BinaryOp::NotEqual => compared(alloc, l, r),
        P4BinaryOp::Less => compared(alloc, as_bits(l), as_bits(r)),
        P4BinaryOp::LessEqual => compared(alloc, as_bits(l), as_bits(r)),
        P4BinaryOp::More => compared(alloc, as_bits(l), as_bits(r)),
        P4BinaryOp::MoreEqual => compared(alloc, as_bits(l), as_bits(r)),
        P4BinaryOp::ShiftLeft => shifted(alloc, l, r),
        P4BinaryOp::ShiftRight => shifted(alloc, l, r),
        P4BinaryOp::Concat => concatenated(alloc, at, l, r),
        _ => alike(alloc, as_bits(l), as_bits(r)),
    }
}
