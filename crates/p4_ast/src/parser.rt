//! The parser and its states.

use crate::control::P4Param;
use crate::expression::P4Expr;
use crate::name::{P4Name, P4Path};
use crate::statement::P4Assign;
use sqlite_items::{Boxed, Items};

/// `parser`. `packet`, `headers`, `meta` and `std` are its four parameters.
#[derive(Debug, Drop)]
pub struct P4Parser {
    pub at: u64,
    pub name: P4Name,
    pub packet: P4Name,
    pub headers: P4Param,
    pub meta: P4Param,
    pub std: P4Name,
    pub states: Items<P4State>,
}

/// `state`
#[derive(Debug, Drop)]
pub struct P4State {
    pub at: u64,
    pub name: P4Name,
    pub steps: Items<P4Step>,
    pub target: P4Target,
}

/// A statement of a state.
#[derive(Debug, Drop)]
pub enum P4Step {
    Extract(P4Extract),
    Assign(P4Assign),
}

/// `extract`: `name.extract(path);`
#[derive(Debug, Drop)]
pub struct P4Extract {
    pub at: u64,
    pub name: P4Name,
    pub path: P4Path,
}

/// `target`: the state that follows, or the choice of one.
#[derive(Debug, Drop)]
pub enum P4Target {
    Name {
        at: u64,
        name: P4Name,
    },
    Select {
        at: u64,
        exprs: Items<P4Expr>,
        cases: Items<P4Case>,
    },
}

/// A case of a `select`: `keyset: name;`
#[derive(Debug, Drop)]
pub struct P4Case {
    pub at: u64,
    pub keyset: Boxed<P4Keyset>,
    pub name: P4Name,
}

/// `keyset`
#[derive(Debug, Drop)]
pub enum P4Keyset {
    Default { at: u64 },
    One(P4One),
    /// At least two, in parentheses.
    Tuple { at: u64, ones: Items<P4One> },
}

/// `one`: what one key must match.
#[derive(Debug, Drop)]
pub enum P4One {
    /// `_`
    Any {
        at: u64,
    },
    /// `expr` or `expr &&& mask`
    Expr {
        at: u64,
        expr: Boxed<P4Expr>,
        mask: Option<Boxed<P4Expr>>,
    },
}
