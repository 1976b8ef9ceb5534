//! The values of expressions.
ghost use Rattle.std.specs.Prelude.{◌≡◌, ◌<◌};
ghost use Rattle.app_meaning.specs.Expressions.{literal, high_bit, low_bit, eval};
ghost use Rattle.tree_eval.specs.Seen.{seen};

use crate::declared::type_width;
use crate::paths::path_value;
use app_data::{Scope, Value};
use p4_ast::{P4Expr, P4Number, P4Slice};
use value_ops::{binary_value, cut, slice_value, truth, unary_value};

/// A literal's value.
pub fn literal(n: P4Number) -> Value
    ensures { result ≡ literal n }
{
    let width = match n.width {
        Some(w) => w.min(128),
        None => 128,
    };
    cut(width, n.value)
}

/// The highest bit of a slice.
pub fn high_bit(s: P4Slice) -> u8
    ensures value { result ≡ high_bit s }
    ensures below { result < 128 }
{
    s.high.value.min(127) as u8
}

/// The lowest bit of a slice.
pub fn low_bit(s: P4Slice) -> u8
    ensures value { result ≡ low_bit s }
    ensures below { result < 128 }
{
    s.low.value.min(127) as u8
}

/// The value of an expression.
#[tactic(auto, using(crate::proofs::Evals::evals))]
pub fn eval(e: &P4Expr, sc: Scope<'_>, values: &[Value]) -> Value
    ensures { result ≡ eval e.now (seen sc.entry) values.now }
{
    match e {
        P4Expr::Choice {
            at: _,
            test,
            yes,
            no,
        } => {
            let t = eval(test.get(), sc, values);
            if t.number == 1 {
                eval(yes.get(), sc, values)
            } else {
                eval(no.get(), sc, values)
            }
        }
        P4Expr::Binary {
            at: _,
            op,
            left,
            right,
        } => {
            let a = eval(left.get(), sc, values);
            let b = eval(right.get(), sc, values);
            binary_value(*op, a, b)
        }
        P4Expr::Unary { at: _, op, operand } => unary_value(*op, eval(operand.get(), sc, values)),
        P4Expr::Cast {
            at: _,
            type_,
            operand,
        } => {
            let v = eval(operand.get(), sc, values);
            cut(type_width(sc.types, type_), v.number)
        }
        P4Expr::Slice {
            at: _,
            operand,
            slice,
        } => {
            let v = eval(operand.get(), sc, values);
            slice_value(v, high_bit(*slice), low_bit(*slice))
        }
        P4Expr::Number { at: _, number } => literal(*number),
        P4Expr::True { at: _ } => truth(true),
        P4Expr::False { at: _ } => truth(false),
        P4Expr::Path { at: _, path } | P4Expr::IsValid { at: _, path } => {
            path_value(sc, values, path)
        }
    }
}
