//! What a control declares: actions and tables.

use exec_actions::Action;
use exec_code::Code;
use match_tables::Table as Rows;
use sqlite_items::{Boxed, Items};

/// A call of an action, by its number; `None` stands for one that does nothing.
#[derive(Drop)]
pub struct Call {
    pub action: Option<usize>,
    pub args: Items<Boxed<Code>>,
}

/// A table: its keys, its entries, the call of each entry, and what is called where no entry matches.
#[derive(Drop)]
pub struct Table {
    pub keys: Items<Boxed<Code>>,
    pub rows: Boxed<Rows>,
    pub calls: Items<Boxed<Call>>,
    pub default: Option<Boxed<Call>>,
}

/// What has a number among a control's locals.
#[derive(Drop)]
pub enum Local {
    Action(Boxed<Action>),
    Table(Boxed<Table>),
    /// Neither an action nor a table.
    Other,
}
