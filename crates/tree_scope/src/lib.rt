//! What names stand for in the parser, the ingress control and the deparser of a program, by walking its tree: types and constants,
//! slots, and cells.
#![tactic(auto)]

mod declared;
mod registers;
mod scopes;
mod slots;
mod types;
mod variables;

pub use scopes::Scopes;
