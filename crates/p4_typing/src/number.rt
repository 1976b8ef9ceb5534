//! Numbers of so many bits.
ghost use Rattle.std.specs.Prelude.{◌≡◌, ◌-◌, ◌^◌, ◌≤◌, nat_le};
ghost use Rattle.p4_typing.specs.Values.{some_bits};

use p4_scope::Value;
use p4_scope::types::is_width;

/// All ones.
pub fn full(w: u8) -> u128
    requires { w ≤ 128 }
    ensures { result ≡ 2 ^ w - 1 }
{
    if w < 128 { (1 << w) - 1 } else { u128::MAX }
}

/// Whether the number doesn't fit the width.
pub fn is_wide(n: u128, w: u8) -> bool
    ensures { result ≡ nat_le (2 ^ w) n }
{
    w < 128 && full(w) < n
}

/// The number, cut to so many bits, where bits may have this width.
pub fn some_bits(w: u8, n: u128) -> Option<Value>
    ensures { result ≡ some_bits w n }
{
    if !is_width(w as u128) {
        return None;
    }
    if w < 128 {
        return Some(Value::Bits {
            number: n % (1 << w),
            width: w,
        });
    }
    Some(Value::Bits {
        number: n,
        width: w,
    })
}
