//! Readers of the parts of programs, each exactly the grammar's reading function: expressions, simple statements, declarations,
//! keysets, tables, the parser and the deparser.
#![tactic(auto)]

pub mod condition;
pub mod declaration;
pub mod deparser;
pub mod expression;
pub mod keyset;
pub mod parser;
pub mod part;
pub mod statement;
pub mod table;
