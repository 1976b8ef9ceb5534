//! Bits are put behind one another.
ghost use Rattle.std.specs.Prelude.{◌≡◌, ◌≤◌, ◌<◌, ◌*◌, ◌+◌, ◌^◌, ◌%◌, ◌++◌, ℕ, [], length, OnOk, OnErr};
ghost use Rattle.rp_bits.specs.Bits.{digits, bits_of, bytes_of};
ghost use Rattle.rp_bits.specs.Fields.{IsBytes, IsPart};

use arrayvec::ArrayVec;
use rp_base::{Bytes, NoMemory};
use std::alloc::Global;
use std::marker::Model;

/// Bits that were put behind one another: whole bytes, and up to seven bits of the next one.
#[derive(Debug, Drop)]
pub struct BitWriter {
    bytes: Bytes,
    part: u8,
    used: u8,
}

impl Model for BitWriter {
    ghost use Rattle.std.specs.Prelude.{List, ℕ, ◌++◌};
    ghost use Rattle.rp_bits.specs.Bits.{bits_of, digits};
    ghost use Rattle.rp_bits.specs.Fields.{IsPart};

    ghost Value = { List ℕ };

    ghost view = { λ w. bits_of w.bytes ++ digits w.used w.part };

    ghost invariant = { λ w. IsPart w.used w.part };
}

impl BitWriter {
    /// No bits. Takes no memory.
    pub fn new(alloc: Global) -> BitWriter
        ensures { result ≡ [] }
    {
        BitWriter {
            bytes: Bytes::new(alloc),
            part: 0,
            used: 0,
        }
    }

    /// Puts the `w` bits of `v`, 1 to 128, the most significant one first; `v` is below 2^w.
    ///
    /// # Errors
    /// `NoMemory`; the writer is unchanged.
    pub fn put(&mut self, w: u8, v: u128) -> Result<(), NoMemory>
        requires some { 1 ≤ w }
        requires fits { w ≤ 128 }
        requires below { v < 2 ^ w }
        ensures ok { OnOk result (self.new ≡ self.old ++ digits w v) }
        ensures err { OnErr result (self.new ≡ self.old) }
    {
        let (whole, part, used) = joined(self.part, self.used, w, v);
        self.bytes.append(whole.as_slice())?;
        self.part = part;
        self.used = used;
        Ok(())
    }

    /// Puts all bits of these bytes.
    ///
    /// # Errors
    /// `NoMemory`.
    pub fn put_bytes(&mut self, bytes: &[u8]) -> Result<(), NoMemory>
        ensures { OnOk result (self.new ≡ self.old ++ bits_of bytes.now) }
    {
        if self.used == 0 {
            self.bytes.append(bytes)?;
            return Ok(());
        }
        for b in bytes {
            self.put(8, *b as u128)?;
        }
        Ok(())
    }

    /// The bytes of all bits. Where their number isn't a multiple of 8, the bits behind the last whole byte aren't in them.
    pub fn finish(self) -> Bytes
        ensures { result ≡ bytes_of self }
    {
        fit(self.bytes.as_slice());
        self.bytes
    }
}

// The whole bytes of `used` bits of `part` and `w` bits of `v` behind them, and the bits that are left.
fn joined(part: u8, used: u8, w: u8, v: u128) -> (ArrayVec<u8, 17>, u8, u8)
    requires part { IsPart used part }
    requires fits { w ≤ 128 }
    ensures bits { bits_of result.0.items ++ digits result.2 result.1 ≡ digits used part ++ digits w v }
    ensures part { IsPart result.2 result.1 }
{
    let mut whole = ArrayVec::new();
    let mut part = part;
    let mut used = used;
    let mut left = w;
    while left > 0 {
        left -= 1;
        part = part * 2 + ((v >> left) % 2) as u8;
        used += 1;
        if used == 8 {
            whole.push(part);
            part = 0;
            used = 0;
        }
    }
    (whole, part, used)
}

// Each member is a byte.
fn fit(bytes: &[u8])
    ensures { IsBytes bytes.now }
{}
