//! Expressions: their code, and its value.
ghost use Rattle.std.specs.Prelude.{◌≡◌, List, IfOk};
ghost use Rattle.app_data.specs.declared.value.Value.{Value as ValueValue};
ghost use Rattle.app_meaning.specs.Expressions.{eval};
ghost use Rattle.app_meaning.specs.Slots.{names, path_value};
ghost use Rattle.exec_code.specs.Running.{run_code};
ghost use Rattle.tree_eval.specs.Seen.{seen};

use app_data::{Scope, Value};
use exec_code::Code;
use p4_ast::{P4Expr, P4Path};
use rp_base::NoMemory;
use sqlite_items::Boxed;
use std::alloc::Global;
use tree_eval::{high_bit, literal, low_bit, path_value, slot_of, type_width, value_in};
use value_ops::{binary_value, cut, slice_value, truth, unary_value};

fn boxed(alloc: Global, code: Code) -> Result<Boxed<Code>, NoMemory>
    ensures { IfOk result (λ b. b ≡ code) }
{
    Ok(Boxed::new(alloc, code)?)
}

// The code of a path: its slot, or else its constant.
#[tactic(auto, using(crate::proofs::Codes::steps))]
fn code_of_path(alloc: Global, path: &P4Path, sc: Scope<'_>) -> Result<Boxed<Code>, NoMemory>
    ensures { IfOk result (λ code. (values : List ValueValue) → run_code code values ≡ path_value (seen sc.entry) values (names path.now)) }
{
    let code = match slot_of(sc, path.names.as_slice()) {
        Some(i) => Code::Slot(i),
        None => Code::Literal(path_value(sc, &[], path)),
    };
    Ok(Boxed::new(alloc, code)?)
}

/// The code of an expression.
///
/// # Errors
/// `NoMemory`.
#[tactic(auto, using(crate::proofs::Codes::steps))]
pub fn code_of(alloc: Global, e: &P4Expr, sc: Scope<'_>) -> Result<Boxed<Code>, NoMemory>
    ensures { IfOk result (λ code. (values : List ValueValue) → run_code code values ≡ eval e.now (seen sc.entry) values) }
{
    match e {
        P4Expr::Choice {
            at: _,
            test,
            yes,
            no,
        } => {
            let t = code_of(alloc, test.get(), sc)?;
            let first = code_of(alloc, yes.get(), sc)?;
            let second = code_of(alloc, no.get(), sc)?;
            Ok(boxed(alloc, Code::Choice(t, first, second))?)
        }
        P4Expr::Binary {
            at: _,
            op,
            left,
            right,
        } => {
            let a = code_of(alloc, left.get(), sc)?;
            let b = code_of(alloc, right.get(), sc)?;
            Ok(boxed(alloc, Code::Binary(*op, a, b))?)
        }
        P4Expr::Unary { at: _, op, operand } => {
            let x = code_of(alloc, operand.get(), sc)?;
            Ok(boxed(alloc, Code::Unary(*op, x))?)
        }
        P4Expr::Cast {
            at: _,
            type_,
            operand,
        } => {
            let x = code_of(alloc, operand.get(), sc)?;
            Ok(boxed(alloc, Code::Cut(type_width(sc.types, type_), x))?)
        }
        P4Expr::Slice {
            at: _,
            operand,
            slice,
        } => {
            let x = code_of(alloc, operand.get(), sc)?;
            Ok(boxed(alloc, Code::Slice(x, *slice))?)
        }
        P4Expr::Number { at: _, number } => Ok(boxed(alloc, Code::Literal(literal(*number)))?),
        P4Expr::True { at: _ } => Ok(boxed(alloc, Code::Literal(truth(true)))?),
        P4Expr::False { at: _ } => Ok(boxed(alloc, Code::Literal(truth(false)))?),
        P4Expr::Path { at: _, path } | P4Expr::IsValid { at: _, path } => {
            code_of_path(alloc, path, sc)
        }
    }
}

/// The value of code; only the branch that is taken is run.
#[tactic(auto, using(crate::proofs::Codes::steps))]
pub fn value_of(code: &Code, values: &[Value]) -> Value
    ensures { result ≡ run_code code.now values.now }
{
    match code {
        Code::Literal(v) => *v,
        Code::Slot(i) => value_in(values, *i),
        Code::Choice(test, first, second) => {
            if value_of(test.get(), values).number == 1 {
                value_of(first.get(), values)
            } else {
                value_of(second.get(), values)
            }
        }
        Code::Binary(op, left, right) => {
            let a = value_of(left.get(), values);
            binary_value(*op, a, value_of(right.get(), values))
        }
        Code::Unary(op, operand) => unary_value(*op, value_of(operand.get(), values)),
        Code::Cut(width, operand) => cut(*width, value_of(operand.get(), values).number),
        Code::Slice(operand, bits) => {
            slice_value(
                value_of(operand.get(), values),
                high_bit(*bits),
                low_bit(*bits),
            )
        }
    }
}
