//! Types, and what stands before the parser.

use crate::expression::P4Expr;
use crate::name::{P4Name, P4Number};
use sqlite_items::{Boxed, Items};

/// `type`
#[derive(Debug, Drop)]
pub enum P4Type {
    /// `bit<width>`
    Bit { at: u64, width: P4Number },
    Bool { at: u64 },
    /// A header, a structure or a typedef.
    Name { at: u64, name: P4Name },
    StdT { at: u64 },
}

/// A field of a header or of a structure, or a parameter of an action: `type name`.
#[derive(Debug, Drop)]
pub struct P4Field {
    pub at: u64,
    pub type_: P4Type,
    pub name: P4Name,
}

/// `header`
#[derive(Debug, Drop)]
pub struct P4Header {
    pub at: u64,
    pub name: P4Name,
    pub fields: Items<P4Field>,
}

/// `struct`
#[derive(Debug, Drop)]
pub struct P4Struct {
    pub at: u64,
    pub name: P4Name,
    pub fields: Items<P4Field>,
}

/// `typedef`
#[derive(Debug, Drop)]
pub struct P4Typedef {
    pub at: u64,
    pub type_: P4Type,
    pub name: P4Name,
}

/// `const`
#[derive(Debug, Drop)]
pub struct P4Const {
    pub at: u64,
    pub type_: P4Type,
    pub name: P4Name,
    pub expr: Boxed<P4Expr>,
}

/// What may stand before the parser.
#[derive(Debug, Drop)]
pub enum P4Declaration {
    Header(P4Header),
    Struct(P4Struct),
    Typedef(P4Typedef),
    Const(P4Const),
}
