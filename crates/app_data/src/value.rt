//! Values, and what a key of a table must be.

/// A number and its width in bits, at most 128. A bool is one bit.
#[derive(Clone, Copy, Debug, PartialEq, Eq)]
pub struct Value {
    pub width: u8,
    pub number: u128,
}

/// What one key must be under a mask.
#[derive(Clone, Copy, Debug, PartialEq, Eq)]
pub struct Match {
    pub value: u128,
    pub mask: u128,
}
