//! The operators.
ghost use Rattle.std.specs.Prelude.{◌≡◌};
ghost use Rattle.app_meaning.specs.Values.{binary_value, unary_value};

use crate::arithmetic::{
    complement, concat, minus, negate, plus, sat_minus, sat_plus, shift_left, shift_right,
};
use crate::bits::{cut, truth};
use app_data::Value;
use p4_ast::{P4BinaryOp, P4UnaryOp};

/// What an operator makes of two values.
pub fn binary_value(op: P4BinaryOp, a: Value, b: Value) -> Value
    ensures { result ≡ binary_value op a b }
{
    match op {
        P4BinaryOp::Or | P4BinaryOp::BitOr => cut(a.width, a.number | b.number),
        P4BinaryOp::And | P4BinaryOp::BitAnd => cut(a.width, a.number & b.number),
        P4BinaryOp::BitXor => cut(a.width, a.number ^ b.number),
        P4BinaryOp::Equal => truth(a.number == b.number),
        P4BinaryOp::NotEqual => truth(a.number != b.number),
        P4BinaryOp::Less => truth(a.number < b.number),
        P4BinaryOp::LessEqual => truth(a.number <= b.number),
        P4BinaryOp::More => truth(a.number > b.number),
        P4BinaryOp::MoreEqual => truth(a.number >= b.number),
        P4BinaryOp::Plus => plus(a, b),
        P4BinaryOp::Minus => minus(a, b),
        P4BinaryOp::SatPlus => sat_plus(a, b),
        P4BinaryOp::SatMinus => sat_minus(a, b),
        P4BinaryOp::ShiftLeft => shift_left(a, b.number),
        P4BinaryOp::ShiftRight => shift_right(a, b.number),
        P4BinaryOp::Concat => concat(a, b),
    }
}

/// What an operator makes of one value.
pub fn unary_value(op: P4UnaryOp, v: Value) -> Value
    ensures { result ≡ unary_value op v }
{
    match op {
        P4UnaryOp::Not => truth(v.number != 1),
        P4UnaryOp::Complement => complement(v),
        P4UnaryOp::Negate => negate(v),
    }
}
