//! Values that are built of literals and constants.
ghost use Rattle.std.specs.Prelude.{◌≡◌};
ghost use Rattle.std.specs.Prelude.{None, nat_lt, ◌/◌, ◌*◌, ◌^◌, ◌%◌, ◌≤◌, if◌then◌else◌};
ghost use Rattle.p4_scope.specs.Paths.{root};
ghost use Rattle.p4_ast.specs.declared.expression.P4BinaryOp.TheVariants as binary;
ghost use Rattle.p4_typing.specs.Values.{some_bits, bits_value, numbers_value, bools_value, binary_value, unary_value, cast_value, slice_value, choice_value, number_value, constant_value, alone, value_of, strange_path, strange};

use crate::number::{full, some_bits};
use p4_ast::{P4BinaryOp, P4Expr, P4Number, P4Path, P4UnaryOp};
use p4_scope::flow::first_at;
use p4_scope::types::is_width;
use p4_scope::{Kind, Scope, Thing, Value};

fn saturated(w: u8, a: u128, b: u128) -> Option<Value>
    ensures { result ≡ bits_value binary.SatPlus w a b }
{
    if !is_width(w as u128) {
        return None;
    }
    some_bits(w, a.saturating_add(b).min(full(w)))
}

fn bits_value(op: P4BinaryOp, w: u8, a: u128, b: u128) -> Option<Value>
    ensures { result ≡ bits_value op w a b }
{
    match op {
        P4BinaryOp::Plus => some_bits(w, a.wrapping_add(b)),
        P4BinaryOp::Minus => some_bits(w, a.wrapping_sub(b)),
        P4BinaryOp::SatPlus => saturated(w, a, b),
        P4BinaryOp::SatMinus => some_bits(w, a.saturating_sub(b)),
        P4BinaryOp::BitAnd => some_bits(w, a & b),
        P4BinaryOp::BitOr => some_bits(w, a | b),
        P4BinaryOp::BitXor => some_bits(w, a ^ b),
        P4BinaryOp::Equal => Some(Value::Bool(a == b)),
        P4BinaryOp::NotEqual => Some(Value::Bool(a != b)),
        P4BinaryOp::Less => Some(Value::Bool(a < b)),
        P4BinaryOp::LessEqual => Some(Value::Bool(a <= b)),
        P4BinaryOp::More => Some(Value::Bool(a > b)),
        P4BinaryOp::MoreEqual => Some(Value::Bool(a >= b)),
        _ => None,
    }
}

fn left_shifted(v: u8, a: u128, b: u128) -> Option<Value>
    ensures { result ≡ some_bits v (if nat_lt b v then a * 2 ^ b else 0) }
{
    if b < v as u128 && v <= 128 {
        some_bits(v, a << (b as u8))
    } else {
        some_bits(v, 0)
    }
}

fn right_shifted(v: u8, a: u128, b: u128) -> Option<Value>
    ensures { result ≡ some_bits v (if nat_lt b v then a / 2 ^ b else 0) }
{
    if b < v as u128 && v <= 128 {
        some_bits(v, a >> (b as u8))
    } else {
        some_bits(v, 0)
    }
}

fn raised(w: u8, a: u128) -> u128
    requires { w ≤ 128 }
    ensures { result ≡ (a * 2 ^ w) % 2 ^ 128 }
{
    if w < 128 { a << w } else { 0 }
}

fn joined(v: u8, a: u128, w: u8, b: u128) -> Option<Value>
    ensures { result ≡ numbers_value binary.Concat v a w b }
{
    let width = v as u128 + w as u128;
    if !is_width(width) {
        return None;
    }
    some_bits(width as u8, raised(w, a).wrapping_add(b))
}

fn numbers_value(op: P4BinaryOp, v: u8, a: u128, w: u8, b: u128) -> Option<Value>
    ensures { result ≡ numbers_value op v a w b }
{
    match op {
        P4BinaryOp::ShiftLeft => left_shifted(v, a, b),
        P4BinaryOp::ShiftRight => right_shifted(v, a, b),
        P4BinaryOp::Concat => joined(v, a, w, b),
        op => if v == w {
            bits_value(op, v, a, b)
        } else {
            None
        },
    }
}

fn bools_value(op: P4BinaryOp, a: bool, b: bool) -> Option<Value>
    ensures { result ≡ bools_value op a b }
{
    match op {
        P4BinaryOp::Or => Some(Value::Bool(a || b)),
        P4BinaryOp::And => Some(Value::Bool(a && b)),
        P4BinaryOp::Equal => Some(Value::Bool(a == b)),
        P4BinaryOp::NotEqual => Some(Value::Bool(a != b)),
        _ => None,
    }
}

fn binary_value(op: P4BinaryOp, x: Option<Value>, y: Option<Value>) -> Option<Value>
    ensures { result ≡ binary_value op x y }
{
    match (x, y) {
        (
            Some(
                Value::Bits {
                    number: a,
                    width: v,
                },
            ),
            Some(
                Value::Bits {
                    number: b,
                    width: w,
                },
            ),
        ) => numbers_value(op, v, a, w, b),
        (Some(Value::Bool(a)), Some(Value::Bool(b))) => bools_value(op, a, b),
        _ => None,
    }
}

fn unary_value(op: P4UnaryOp, x: Option<Value>) -> Option<Value>
    ensures { result ≡ unary_value op x }
{
    match (op, x) {
        (P4UnaryOp::Not, Some(Value::Bool(b))) => Some(Value::Bool(!b)),
        (P4UnaryOp::Complement, Some(Value::Bits { number, width })) => {
            some_bits(width, u128::MAX - number)
        }
        (P4UnaryOp::Negate, Some(Value::Bits { number, width })) => {
            some_bits(width, 0u128.wrapping_sub(number))
        }
        _ => None,
    }
}

fn cast_value(k: Kind, x: Option<Value>) -> Option<Value>
    ensures { result ≡ cast_value k x }
{
    match (k, x) {
        (Kind::Bits(w), Some(Value::Bits { number, .. })) => some_bits(w, number),
        (Kind::Bits(w), Some(Value::Bool(b))) => some_bits(w, if b { 1 } else { 0 }),
        (Kind::Bool, Some(Value::Bits { number, width })) => {
            if width == 1 {
                Some(Value::Bool(number == 1))
            } else {
                None
            }
        }
        (Kind::Bool, Some(Value::Bool(b))) => Some(Value::Bool(b)),
        _ => None,
    }
}

fn slice_value(high: u128, low: u128, x: Option<Value>) -> Option<Value>
    ensures { result ≡ slice_value high low x }
{
    let Some(Value::Bits { number, width }) = x else {
        return None;
    };
    if low <= high && high < width as u128 && is_width(width as u128) {
        some_bits((high - low + 1) as u8, number >> (low as u8))
    } else {
        None
    }
}

fn choice_value(t: Option<Value>, x: Option<Value>, y: Option<Value>) -> Option<Value>
    ensures { result ≡ choice_value t x y }
{
    match (t, x, y) {
        (Some(Value::Bool(b)), Some(x), Some(y)) => if b { Some(x) } else { Some(y) },
        _ => None,
    }
}

fn number_value(n: P4Number) -> Option<Value>
    ensures { result ≡ number_value n }
{
    match n.width {
        None => None,
        Some(w) => some_bits(w, n.value),
    }
}

fn path_value(p: &P4Path, s: &Scope) -> Option<Value>
    ensures { result ≡ (if alone p.now.names then constant_value (root p.now.names s.now) else None) }
{
    match p.names.as_slice() {
        [_] => match s.root(p) {
            Some(Thing::Const(_, v)) => v,
            _ => None,
        },
        _ => None,
    }
}

/// The value of an expression whose literals have their widths, where it is built of these and of constants.
pub fn value_of(e: &P4Expr, s: &Scope) -> Option<Value>
    ensures { result ≡ value_of e.now s.now }
{
    match e {
        P4Expr::Choice { test, yes, no, .. } => choice_value(
            value_of(test.get(), s),
            value_of(yes.get(), s),
            value_of(no.get(), s),
        ),
        P4Expr::Binary {
            op,
            left,
            right,
            ..
        } => { binary_value(*op, value_of(left.get(), s), value_of(right.get(), s)) }
        P4Expr::Unary { op, operand, .. } => unary_value(*op, value_of(operand.get(), s)),
        P4Expr::Cast { type_, operand, .. } => {
            cast_value(s.type_kind(type_).1, value_of(operand.get(), s))
        }
        P4Expr::Slice { operand, slice, .. } => {
            slice_value(
                slice.high.value,
                slice.low.value,
                value_of(operand.get(), s),
            )
        }
        P4Expr::Number { number, .. } => number_value(*number),
        P4Expr::True { .. } => Some(Value::Bool(true)),
        P4Expr::False { .. } => Some(Value::Bool(false)),
        P4Expr::Path { path, .. } => path_value(path, s),
        P4Expr::IsValid { .. } => None,
    }
}

fn strange_path(at: u64, t: Option<Thing>) -> Option<u64>
    ensures { result ≡ strange_path at t }
{
    match t {
        None => None,
        Some(Thing::Const(_, _)) => None,
        Some(_) => Some(at),
    }
}

/// The place of the first path that isn't a constant.
pub fn strange(e: &P4Expr, s: &Scope) -> Option<u64>
    ensures { result ≡ strange e.now s.now }
{
    match e {
        P4Expr::Choice { test, yes, no, .. } => first_at(
            strange(test.get(), s),
            first_at(strange(yes.get(), s), strange(no.get(), s)),
        ),
        P4Expr::Binary { left, right, .. } => {
            first_at(strange(left.get(), s), strange(right.get(), s))
        }
        P4Expr::Unary { operand, .. } => strange(operand.get(), s),
        P4Expr::Cast { operand, .. } => strange(operand.get(), s),
        P4Expr::Slice { operand, .. } => strange(operand.get(), s),
        P4Expr::Number { .. } => None,
        P4Expr::True { .. } => None,
        P4Expr::False { .. } => None,
        P4Expr::Path { at, path } => strange_path(*at, s.root(path)),
        P4Expr::IsValid { at, path } => strange_path(*at, s.root(path)),
    }
}
