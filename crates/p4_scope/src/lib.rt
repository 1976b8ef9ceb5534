//! Names, scopes and kinds: what a program has declared so far, what names, types and paths stand for, where flow keys stand, and the
//! first fault so far.
#![tactic(auto)]

pub mod copy;
pub mod flow;
mod kind;
mod named;
pub mod param;
pub mod path;
pub mod record;
pub mod refusal;
mod scope;
mod thing;
pub mod types;

pub use kind::{Kind, Value};
pub use named::Named;
pub use scope::{Record, Scope, must_be};
pub use thing::{Action, Site, Table, Thing};
