//! Readers of blocks, of the ingress control and of whole programs, each exactly the grammar's reading function.
#![tactic(auto)]

mod block;
mod control;
pub mod program;
