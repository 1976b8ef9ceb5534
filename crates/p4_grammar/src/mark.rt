//! What reading knows of a piece of text beside its tree.
//!
//! What is moved from one reader to the next is boxed, so that nested readers take little of the stack.

use p4_ast::{P4Block, P4Default, P4Entries, P4Expr, P4Name, P4Size, P4Stmt, P4Type};
use sqlite_items::Boxed;

/// How an expression was spelled, where that matters for what may follow it.
#[derive(Debug, Drop)]
pub enum Mark {
    /// This name alone.
    One(P4Name),
    /// This name, a dot and the name `read`.
    Read(P4Name),
    /// A cast to this type of this name, a dot and the name `read`.
    CastRead(Boxed<P4Type>, P4Name),
    /// Its end is a typedef's name in parentheses.
    Bare,
    Plain,
}

/// An expression, with the place of its first token and the mark of its spelling.
#[derive(Debug, Drop)]
pub struct Spelled {
    pub at: u64,
    pub expr: Boxed<P4Expr>,
    pub mark: Mark,
}

/// A statement as it was spelled.
#[derive(Debug, Drop)]
pub enum Piece {
    /// `;`
    Empty { at: u64 },
    Block(P4Block),
    Stmt { at: u64, stmt: Boxed<P4Stmt> },
    /// A statement that an `else` behind it would belong to.
    Open { at: u64, stmt: Boxed<P4Stmt> },
}

/// The properties of a table that were read, each at most once.
#[derive(Debug, Drop)]
pub struct Properties {
    pub default: Option<P4Default>,
    pub entries: Option<P4Entries>,
    pub size: Option<P4Size>,
}
