//! Bits are taken from the front of bytes.
ghost use Rattle.std.specs.Prelude.{◌≡◌, ◌≤◌, ◌<◌, ◌*◌, ◌+◌, ◌^◌, length, take, drop, slice_index, ◌%◌, ◌↔◌, IfOk, IfSome, IsNone};
ghost use Rattle.rp_bits.specs.Bits.{bits_of, number_of, taken};

use std::marker::Model;

/// Fewer bits are left than were asked for: `left` of them.
#[derive(Clone, Copy, Debug, PartialEq, Eq)]
pub struct Short {
    pub left: u64,
}

/// The bits of bytes that aren't taken yet: all of `bytes` but the first `used`, which are fewer than eight.
#[derive(Debug, Drop)]
pub struct BitReader<'a> {
    bytes: &'a [u8],
    used: u8,
}

impl<'a> Model for BitReader<'a> {
    ghost use Rattle.std.specs.Prelude.{List, ℕ, drop};
    ghost use Rattle.rp_bits.specs.Bits.{bits_of};
    ghost use Rattle.rp_bits.specs.Fields.{IsUsed};

    ghost Value = { List ℕ };

    ghost view = { λ r. drop r.used (bits_of r.bytes.now) };

    ghost invariant = { λ r. IsUsed r.used r.bytes.now };
}

impl<'a> BitReader<'a> {
    /// All bits of these bytes.
    pub fn new(bytes: &'a [u8]) -> BitReader<'a>
        ensures { result ≡ bits_of bytes.now }
    {
        BitReader { bytes, used: 0 }
    }

    /// The number of the next `w` bits, 1 to 128, the most significant one first.
    ///
    /// # Errors
    /// `Short` exactly where fewer are left; the reader is unchanged.
    pub fn take(&mut self, w: u8) -> Result<u128, Short>
        requires some { 1 ≤ w }
        requires fits { w ≤ 128 }
        ensures taken { (self.new, result) ≡ taken w self.old }
        ensures below { IfOk result (λ n. n < 2 ^ w) }
    {
        if self.bytes.len() < 17 {
            let left = self.bytes.len() as u64 * 8 - self.used as u64;
            if left < w as u64 {
                return Err(Short { left });
            }
        }
        let n = number_at(self.bytes, self.used as usize, w);
        let end = self.used as usize + w as usize;
        let (_, rest) = self.bytes.split_at(end / 8);
        self.bytes = rest;
        self.used = (end % 8) as u8;
        Ok(n)
    }

    /// The bytes of all bits that are left, where these are whole bytes.
    pub fn whole_bytes(&self) -> Option<&[u8]>
        ensures some { IfSome result (λ bytes. bits_of bytes.now ≡ self.now) }
        ensures none { IsNone result ↔ (0 < length self.now % 8) }
    {
        if self.used == 0 {
            Some(self.bytes)
        } else {
            None
        }
    }
}

// The number of the `w` bits from `at` on.
fn number_at(bytes: &[u8], at: usize, w: u8) -> u128
    requires fits { w ≤ 128 }
    requires front { at < 8 }
    requires there { at + w ≤ 8 * length bytes.now }
    ensures value { result ≡ number_of (take w (drop at (bits_of bytes.now))) }
    ensures below { result < 2 ^ w }
{
    let mut n = 0;
    let mut at = at;
    let mut left = w;
    while left > 0 {
        n = n * 2 + bit_at(bytes, at) as u128;
        at += 1;
        left -= 1;
    }
    n
}

// Bit `at`, counted from the front.
#[tactic(auto, using(crate::proofs::Bits::bit_of))]
fn bit_at(bytes: &[u8], at: usize) -> u8
    requires { at < 8 * length bytes.now }
    ensures value { result ≡ slice_index (bits_of bytes.now) at }
    ensures bit { result < 2 }
{
    (bytes[at / 8] >> (7 - at % 8)) % 2
}
