//! What names stand for: the kinds of types, and the values of constants.

/// What a declared thing holds.
#[derive(Clone, Copy, Debug, PartialEq, Eq)]
pub enum Kind {
    /// So many bits, 1 to 128.
    Bits(u8),
    Bool,
    /// A header, by its number among headers and structures.
    Header(u64),
    /// A structure, by its number among headers and structures.
    Struct(u64),
    /// `std_t`
    Std,
    /// Its declaration has a fault, so nothing is known of it.
    Failed,
}

/// A value that is built of literals and constants.
#[derive(Clone, Copy, Debug, PartialEq, Eq)]
pub enum Value {
    Bits { number: u128, width: u8 },
    Bool(bool),
}
