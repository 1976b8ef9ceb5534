//! What an audit answers.

/// What an audit comes to.
#[derive(Clone, Copy, Debug, PartialEq, Eq)]
pub enum Audit {
    /// Every rule is met.
    Legal,
    /// The least rule that fails: 1 to 5.
    Fails(u8),
}
