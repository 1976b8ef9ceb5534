//! Parts of programs behind their checks: the first fault of each, what is known of it, and it with the widths of its literals.

use p4_ast::{P4Block, P4Declaration, P4Expr, P4Local, P4State};
use p4_scope::Named;
use p4_tables::Key;
use rp_base::Refused;
use sqlite_items::Items;

/// The values of a `select`.
#[derive(Drop)]
pub struct Selected {
    pub fault: Option<Refused>,
    pub forms: Items<Key>,
    pub exprs: Items<P4Expr>,
}

/// The states of a parser: the number of each by its name, and that of the next.
#[derive(Drop)]
pub struct States {
    pub fault: Option<Refused>,
    pub names: Named<u64>,
    pub next: u64,
}

/// What is checked of a program and may hold literals.
#[derive(Drop)]
pub struct Parts {
    pub declarations: Items<P4Declaration>,
    pub states: Items<P4State>,
    pub locals: Items<P4Local>,
    pub block: P4Block,
}
