//! Values of so many bits, and parts of them.
ghost use Rattle.std.specs.Prelude.{◌≡◌, ◌≤◌, ◌<◌, ◌%◌, ◌^◌};
ghost use Rattle.app_meaning.specs.Values.{cut, truth, slice_value, with_slice};

use app_data::Value;

/// The lowest `width` bits of `n`.
pub fn cut(width: u8, n: u128) -> Value
    ensures { result ≡ cut width n }
{
    let number = if width < 128 { n % (1u128 << width) } else { n };
    Value { width, number }
}

/// A bool: one bit.
pub fn truth(b: bool) -> Value
    ensures { result ≡ truth b }
{
    Value {
        width: 1,
        number: if b { 1 } else { 0 },
    }
}

/// Bits `high` down to `low` of a value, both below 128.
pub fn slice_value(v: Value, high: u8, low: u8) -> Value
    requires high { high < 128 }
    requires low { low < 128 }
    ensures { result ≡ slice_value v high low }
{
    cut((high + 1).saturating_sub(low), v.number >> low)
}

/// The value with the number `n` in its bits `high` down to `low`, both below 128.
pub fn with_slice(old: Value, high: u8, low: u8, n: u128) -> Value
    requires high { high < 128 }
    requires low { low < 128 }
    ensures { result ≡ with_slice old high low n }
{
    let above = old.number - cut(high + 1, old.number).number;
    let field = cut((high + 1).saturating_sub(low), n).number << low;
    let below = old.number % (1u128 << low);
    cut(old.width, above.wrapping_add(field).wrapping_add(below))
}
