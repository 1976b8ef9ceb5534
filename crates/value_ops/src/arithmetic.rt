//! Sums, differences and shifts.
ghost use Rattle.std.specs.Prelude.{◌≡◌, ◌+◌, ◌-◌, ◌*◌, ◌%◌, ◌^◌, min};
ghost use Rattle.app_meaning.specs.Values.{cut, ones, shift_left, shift_right, width_of, binary_value, unary_value};
ghost use Rattle.p4_ast.specs.declared.expression.P4BinaryOp.TheVariants as binary;
ghost use Rattle.p4_ast.specs.declared.expression.P4UnaryOp.TheVariants as unary;

use crate::bits::cut;
use app_data::Value;

/// The sum, which wraps at the width of the left operand.
#[tactic(auto, using(crate::proofs::Wraps::cut_wraps))]
pub fn plus(a: Value, b: Value) -> Value
    ensures { result ≡ binary_value binary.Plus a b }
{
    cut(a.width, a.number.wrapping_add(b.number))
}

/// The difference, which wraps at the width of the left operand.
#[tactic(auto, using(crate::proofs::Wraps::cut_wraps))]
pub fn minus(a: Value, b: Value) -> Value
    ensures { result ≡ binary_value binary.Minus a b }
{
    cut(a.width, a.number.wrapping_sub(b.number))
}

/// The greatest number of so many bits.
pub fn ones(width: u8) -> u128
    ensures { result ≡ ones width }
{
    if width < 128 {
        (1u128 << width) - 1
    } else {
        u128::MAX
    }
}

/// The sum, at most the greatest number of the width.
pub fn sat_plus(a: Value, b: Value) -> Value
    ensures { result ≡ binary_value binary.SatPlus a b }
{
    Value {
        width: a.width,
        number: a.number.saturating_add(b.number).min(ones(a.width)),
    }
}

/// The difference, at least 0.
pub fn sat_minus(a: Value, b: Value) -> Value
    ensures { result ≡ binary_value binary.SatMinus a b }
{
    cut(a.width, a.number.saturating_sub(b.number))
}

/// The value shifted to the left by so many bits; by its width or more gives 0.
#[tactic(auto, using(crate::proofs::Wraps::cut_wraps))]
pub fn shift_left(v: Value, by: u128) -> Value
    ensures { result ≡ shift_left v by }
{
    let number = if by < v.width.min(128) as u128 {
        v.number << by as u32
    } else {
        0
    };
    cut(v.width, number)
}

/// The value shifted to the right by so many bits; by its width or more gives 0.
pub fn shift_right(v: Value, by: u128) -> Value
    ensures { result ≡ shift_right v by }
{
    let number = if by < v.width.min(128) as u128 {
        v.number >> by as u32
    } else {
        0
    };
    cut(v.width, number)
}

// The number shifted to the left by so many bits, as far as it has 128.
#[tactic(auto, using(crate::proofs::Wraps::shifted_out))]
fn shifted(n: u128, by: u8) -> u128
    ensures { result ≡ n * 2 ^ by % 2 ^ 128 }
{
    if by < 128 { n << by } else { 0 }
}

/// The left operand above the right one, at most 128 bits.
#[tactic(auto, using(crate::proofs::Wraps::cut_front))]
pub fn concat(a: Value, b: Value) -> Value
    ensures { result ≡ binary_value binary.Concat a b }
{
    let width = (a.width as u16 + b.width as u16).min(128) as u8;
    cut(width, shifted(a.number, b.width).wrapping_add(b.number))
}

/// 0 less the value, which wraps at its width.
#[tactic(auto, using(crate::proofs::Wraps::cut_wraps))]
pub fn negate(v: Value) -> Value
    ensures { result ≡ unary_value unary.Negate v }
{
    cut(v.width, 0u128.wrapping_sub(v.number))
}

/// The value with each bit the other one.
pub fn complement(v: Value) -> Value
    ensures { result ≡ unary_value unary.Complement v }
{
    Value {
        width: v.width,
        number: ones(v.width).saturating_sub(v.number),
    }
}
