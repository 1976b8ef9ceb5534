//! A key of a flow.
ghost use Rattle.std.specs.Prelude.{◌≡◌, ◌⊎◌, ◌<◌, ◌≤◌, ◌↔◌, length, IfSome, IsNone};

use std::marker::Model;

/// The key of a flow: 1 to 16 bytes.
#[derive(Clone, Copy, Debug, PartialEq, Eq, Hash)]
pub struct Key {
    len: u8,
    bytes: [u8; 16],
}

impl Model for Key {
    ghost use Rattle.std.specs.Prelude.{List, ℕ, length};

    ghost Value = { List ℕ };

    ghost use Rattle.rp_base.specs.Key.{key_bytes, padded, IsKey, key_again};

    ghost view = { key_bytes };

    ghost invariant = { IsKey };

    ghost inverse = { λ bytes. record { len = length bytes; bytes = padded bytes } };

    ghost inverse_ok = { key_again };
}

impl Key {
    /// A key of these bytes; `None` exactly for no byte or more than 16. Takes no memory.
    pub fn of(bytes: &[u8]) -> Option<Key>
        ensures none { IsNone result ↔ ((length bytes.now ≡ 0) ⊎ (16 < length bytes.now)) }
        ensures value { IfSome result (λ key. key ≡ bytes.now) }
    {
        if bytes.is_empty() || bytes.len() > 16 {
            return None;
        }
        let mut all = [0; 16];
        all[..bytes.len()].copy_from_slice(bytes);
        Some(Key {
            len: bytes.len() as u8,
            bytes: all,
        })
    }

    /// The bytes: 1 to 16.
    pub fn as_slice(&self) -> &[u8]
        ensures value { result.now ≡ self.now }
        ensures some { 1 ≤ length self.now }
        ensures fits { length self.now ≤ 16 }
    {
        &self.bytes[..self.len as usize]
    }
}
