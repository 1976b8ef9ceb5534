//! What is kept of a cell's value before it was written.

/// A cell's value at the begin that had this turn. It counts where the last begin has that turn.
#[derive(Clone, Copy, Debug)]
pub(crate) struct Kept {
    pub(crate) turn: u64,
    pub(crate) value: u64,
}

impl Kept {
    /// Of no begin: turns count from 1.
    pub(crate) const NONE: Kept = Kept { turn: 0, value: 0 };
}
