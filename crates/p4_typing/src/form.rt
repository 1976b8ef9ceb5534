//! What expressions give.

/// What an expression gives.
#[derive(Clone, Copy, Debug, PartialEq, Eq)]
pub enum Form {
    /// So many bits, 1 to 128.
    Bits(u8),
    Bool,
    /// Bits whose width its place gives.
    Open,
    /// It has a fault, so nothing is known of it.
    Failed,
}
