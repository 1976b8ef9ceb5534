//! Expressions.

use crate::declaration::P4Type;
use crate::name::{P4Number, P4Path, P4Slice};
use sqlite_items::Boxed;

/// An operator between two operands.
#[derive(Clone, Copy, Debug, PartialEq, Eq)]
pub enum P4BinaryOp {
    /// `||`
    Or,
    /// `&&`
    And,
    /// `==`
    Equal,
    /// `!=`
    NotEqual,
    /// `<`
    Less,
    /// `<=`
    LessEqual,
    /// `>`
    More,
    /// `>=`
    MoreEqual,
    /// `+`
    Plus,
    /// `-`
    Minus,
    /// `|+|`
    SatPlus,
    /// `|-|`
    SatMinus,
    /// `&`
    BitAnd,
    /// `|`
    BitOr,
    /// `^`
    BitXor,
    /// `<<`
    ShiftLeft,
    /// `>>`
    ShiftRight,
    /// `++`
    Concat,
}

/// An operator before its operand.
#[derive(Clone, Copy, Debug, PartialEq, Eq)]
pub enum P4UnaryOp {
    /// `!`
    Not,
    /// `~`
    Complement,
    /// `-`
    Negate,
}

/// An expression. Parentheses aren't kept.
#[derive(Debug, Drop)]
pub enum P4Expr {
    /// `test ? yes : no`
    Choice {
        at: u64,
        test: Boxed<P4Expr>,
        yes: Boxed<P4Expr>,
        no: Boxed<P4Expr>,
    },
    Binary {
        at: u64,
        op: P4BinaryOp,
        left: Boxed<P4Expr>,
        right: Boxed<P4Expr>,
    },
    Unary {
        at: u64,
        op: P4UnaryOp,
        operand: Boxed<P4Expr>,
    },
    /// `(type_) operand`
    Cast {
        at: u64,
        type_: P4Type,
        operand: Boxed<P4Expr>,
    },
    /// `operand[high:low]`
    Slice {
        at: u64,
        operand: Boxed<P4Expr>,
        slice: P4Slice,
    },
    Number {
        at: u64,
        number: P4Number,
    },
    True {
        at: u64,
    },
    False {
        at: u64,
    },
    Path {
        at: u64,
        path: P4Path,
    },
    /// `path.isValid()`
    IsValid {
        at: u64,
        path: P4Path,
    },
}
