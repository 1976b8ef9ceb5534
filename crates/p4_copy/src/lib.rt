//! Copies of trees: of expressions, plain statements, parsers, tables, and what stands around the ingress control.
#![tactic(auto)]

pub mod declaration;
pub mod expression;
pub mod parser;
pub mod program;
pub mod statement;
pub mod table;
