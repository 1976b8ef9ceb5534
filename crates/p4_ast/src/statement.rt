//! Statements.

use crate::control::P4Var;
use crate::declaration::P4Type;
use crate::expression::P4Expr;
use crate::name::{P4Left, P4Name, P4Path};
use sqlite_items::{Boxed, Items};

/// `block`. Empty statements aren't kept.
#[cycle(ast)]
#[derive(Debug, Drop)]
pub struct P4Block {
    pub at: u64,
    pub stmts: Items<P4Stmt>,
}

/// `stmt`
#[cycle(ast)]
#[derive(Debug, Drop)]
pub enum P4Stmt {
    Block(P4Block),
    Var(P4Var),
    Assign(P4Assign),
    Read(P4Read),
    Write(P4Write),
    Keystmt(P4Keystmt),
    Valid(P4Valid),
    Apply(P4Apply),
    Callstmt(P4Callstmt),
    If(P4If),
}

/// `if`. A branch that is written as one statement is a block of it, at that statement's place.
#[cycle(ast)]
#[derive(Debug, Drop)]
pub struct P4If {
    pub at: u64,
    pub cond: P4Cond,
    pub then: P4Block,
    pub else_: Option<P4Block>,
}

/// `assign`
#[derive(Debug, Drop)]
pub struct P4Assign {
    pub at: u64,
    pub left: P4Left,
    pub expr: Boxed<P4Expr>,
}

/// `read`: `left = (type_) name.read(expr);`
#[derive(Debug, Drop)]
pub struct P4Read {
    pub at: u64,
    pub left: P4Left,
    pub type_: Option<Boxed<P4Type>>,
    pub name: P4Name,
    pub expr: Option<Boxed<P4Expr>>,
}

/// `write`: `name.write(expr);` or `name.write(expr, second);`
#[derive(Debug, Drop)]
pub struct P4Write {
    pub at: u64,
    pub name: P4Name,
    pub expr: Boxed<P4Expr>,
    pub second: Option<Boxed<P4Expr>>,
}

/// `keystmt`: `flow_key(expr);`
#[derive(Debug, Drop)]
pub struct P4Keystmt {
    pub at: u64,
    pub expr: Boxed<P4Expr>,
}

/// `valid`: `path.setValid();` or `path.setInvalid();`
#[derive(Debug, Drop)]
pub struct P4Valid {
    pub at: u64,
    pub path: P4Path,
    pub validity: P4Validity,
}

/// Which of the two words a `valid` has.
#[derive(Clone, Copy, Debug, PartialEq, Eq)]
pub enum P4Validity {
    SetValid,
    SetInvalid,
}

/// `apply`: `name.apply();`
#[derive(Debug, Drop)]
pub struct P4Apply {
    pub at: u64,
    pub name: P4Name,
}

/// `callstmt`: `name(args);`
#[derive(Debug, Drop)]
pub struct P4Callstmt {
    pub at: u64,
    pub name: P4Name,
    pub args: Items<P4Expr>,
}

/// `cond`
#[derive(Debug, Drop)]
pub enum P4Cond {
    Expr(Boxed<P4Expr>),
    /// `name.apply().outcome`; `negated` is whether `!` stands before it.
    Apply {
        at: u64,
        negated: bool,
        name: P4Name,
        outcome: P4Outcome,
    },
}

/// Which outcome of a table a condition asks for.
#[derive(Clone, Copy, Debug, PartialEq, Eq)]
pub enum P4Outcome {
    Hit,
    Miss,
}
