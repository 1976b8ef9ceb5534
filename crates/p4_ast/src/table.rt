//! Tables.

use crate::expression::P4Expr;
use crate::name::{P4Name, P4Number};
use crate::parser::P4Keyset;
use sqlite_items::{Boxed, Items};

/// `table`. The order of `default`, `entries` and `size` isn't kept.
#[derive(Debug, Drop)]
pub struct P4Table {
    pub at: u64,
    pub name: P4Name,
    pub keys: P4Keys,
    pub acts: P4Acts,
    pub default: Option<P4Default>,
    pub entries: Option<P4Entries>,
    pub size: Option<P4Size>,
}

/// `keys`
#[derive(Debug, Drop)]
pub struct P4Keys {
    pub at: u64,
    pub keys: Items<P4Key>,
}

/// A key of a table: `expr: matching;`
#[derive(Debug, Drop)]
pub struct P4Key {
    pub at: u64,
    pub expr: Boxed<P4Expr>,
    pub matching: P4Match,
}

/// How a key is matched.
#[derive(Clone, Copy, Debug, PartialEq, Eq)]
pub enum P4Match {
    Exact,
    Lpm,
    Ternary,
}

/// `acts`
#[derive(Debug, Drop)]
pub struct P4Acts {
    pub at: u64,
    pub names: Items<P4Name>,
}

/// `default`. `const_` is whether `const` is written.
#[derive(Debug, Drop)]
pub struct P4Default {
    pub at: u64,
    pub const_: bool,
    pub call: P4Call,
}

/// `entries`. `const_` is whether `const` is written.
#[derive(Debug, Drop)]
pub struct P4Entries {
    pub at: u64,
    pub const_: bool,
    pub entries: Items<P4Entry>,
}

/// An entry of a table: `keyset: call;`
#[derive(Debug, Drop)]
pub struct P4Entry {
    pub at: u64,
    pub keyset: Boxed<P4Keyset>,
    pub call: P4Call,
}

/// `size`
#[derive(Clone, Copy, Debug)]
pub struct P4Size {
    pub at: u64,
    pub number: P4Number,
}

/// `call`: an action with its arguments. Whether empty parentheses are written isn't kept.
#[derive(Debug, Drop)]
pub struct P4Call {
    pub at: u64,
    pub name: P4Name,
    pub args: Items<P4Expr>,
}
