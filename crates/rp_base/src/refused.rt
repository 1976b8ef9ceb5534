//! Why the text of an application is refused, and where.

/// Why a program is refused.
#[derive(Clone, Copy, Debug, PartialEq, Eq)]
pub enum Why {
    /// A byte begins no token.
    BadByte,
    /// A number is spelled wrongly or is out of range.
    BadNumber,
    /// A comment isn't closed.
    OpenComment,
    /// A preprocessor line that isn't known.
    Directive,
    /// The text is longer than the limit.
    TooLong,
    /// The text is nested too deeply.
    Deep,
    /// Operators of two kinds stand together without parentheses.
    Mixed,
    /// A token that no program has here, or the text ends too early.
    Unexpected,
    /// A name that isn't declared.
    Unknown,
    /// A name that is declared twice.
    Twice,
    /// A thing of the wrong kind.
    Kind,
    /// A wrong width.
    Width,
    /// A literal too large for its width.
    Fit,
    /// A parser state that leads back to itself.
    Cycle,
    /// A misplaced flow key, or a cell used outside its body.
    Key,
    /// Too many cells.
    Cells,
    /// A table's entry that isn't allowed.
    Entry,
}

/// A refusal: the offset of a byte, from 0, and the cause.
#[derive(Clone, Copy, Debug, PartialEq, Eq)]
pub struct Refused {
    pub at: u64,
    pub why: Why,
}
