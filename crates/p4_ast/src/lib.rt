//! The trees of programs: one type a production of the grammar. Each node has the place of its first token, which is the offset of a
//! byte from 0; an enum whose variants hold one node each has that node's place.
#![tactic(auto)]

mod control;
mod declaration;
mod expression;
mod name;
mod parser;
mod program;
mod statement;
mod table;

pub use control::{P4Action, P4Cell, P4Ingress, P4Local, P4Param, P4Var};
pub use declaration::{P4Const, P4Declaration, P4Field, P4Header, P4Struct, P4Type, P4Typedef};
pub use expression::{P4BinaryOp, P4Expr, P4UnaryOp};
pub use name::{P4Left, P4Name, P4Number, P4Path, P4Slice};
pub use parser::{P4Case, P4Extract, P4Keyset, P4One, P4Parser, P4State, P4Step, P4Target};
pub use program::{P4Deparser, P4Emit, P4Package, P4Program};
pub use statement::{
    P4Apply, P4Assign, P4Block, P4Callstmt, P4Cond, P4If, P4Keystmt, P4Outcome, P4Read, P4Stmt,
    P4Valid, P4Validity, P4Write,
};
pub use table::{
    P4Acts, P4Call, P4Default, P4Entries, P4Entry, P4Key, P4Keys, P4Match, P4Size, P4Table,
};

/// The tree of a whole program.
pub type Tree = P4Program;
