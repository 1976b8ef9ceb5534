//! The ingress control and what is declared in it.

use crate::declaration::{P4Const, P4Field, P4Type};
use crate::expression::P4Expr;
use crate::name::{P4Name, P4Number};
use crate::statement::P4Block;
use crate::table::P4Table;
use sqlite_items::{Boxed, Items};

/// A parameter of a parser or control whose type is a name; its place is that of `in`, `out` or `inout`.
#[derive(Debug, Drop)]
pub struct P4Param {
    pub at: u64,
    pub type_: P4Name,
    pub name: P4Name,
}

/// `ingress`. `headers`, `meta`, `std` and `rp` are its parameters.
#[derive(Debug, Drop)]
pub struct P4Ingress {
    pub at: u64,
    pub name: P4Name,
    pub headers: P4Param,
    pub meta: P4Param,
    pub std: P4Name,
    pub rp: Option<P4Param>,
    pub locals: Items<P4Local>,
    pub block: P4Block,
}

/// `local`
#[derive(Debug, Drop)]
pub enum P4Local {
    Const(P4Const),
    Var(P4Var),
    Cell(P4Cell),
    Action(P4Action),
    Table(P4Table),
}

/// `var`
#[derive(Debug, Drop)]
pub struct P4Var {
    pub at: u64,
    pub type_: P4Type,
    pub name: P4Name,
    pub expr: Option<Boxed<P4Expr>>,
}

/// `cell`
#[derive(Debug, Drop)]
pub enum P4Cell {
    /// `FlowCell<type_>() name;`
    Cell {
        at: u64,
        type_: P4Type,
        name: P4Name,
    },
    /// `FlowArray<type_>(size) name;`
    Array {
        at: u64,
        type_: P4Type,
        size: P4Number,
        name: P4Name,
    },
}

/// `action`
#[derive(Debug, Drop)]
pub struct P4Action {
    pub at: u64,
    pub name: P4Name,
    pub params: Items<P4Field>,
    pub block: P4Block,
}
