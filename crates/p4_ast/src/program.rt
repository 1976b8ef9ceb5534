//! The program, its deparser and its package.

use crate::control::{P4Ingress, P4Param};
use crate::declaration::P4Declaration;
use crate::name::{P4Name, P4Path};
use crate::parser::P4Parser;
use sqlite_items::Items;

/// `program`
#[derive(Debug, Drop)]
pub struct P4Program {
    pub at: u64,
    pub declarations: Items<P4Declaration>,
    pub parser: P4Parser,
    pub ingress: P4Ingress,
    pub deparser: P4Deparser,
    pub package: P4Package,
}

/// `deparser`. `packet` and `headers` are its parameters.
#[derive(Debug, Drop)]
pub struct P4Deparser {
    pub at: u64,
    pub name: P4Name,
    pub packet: P4Name,
    pub headers: P4Param,
    pub emits: Items<P4Emit>,
}

/// A statement of the deparser: `name.emit(path);`
#[derive(Debug, Drop)]
pub struct P4Emit {
    pub at: u64,
    pub name: P4Name,
    pub path: P4Path,
}

/// `package`: the names of the parser and of the two controls.
#[derive(Debug, Drop)]
pub struct P4Package {
    pub at: u64,
    pub parser: P4Name,
    pub ingress: P4Name,
    pub deparser: P4Name,
}
