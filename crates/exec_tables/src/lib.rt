//! Actions and tables over numbered slots, by their places among a control's locals.
#![tactic(auto)]

mod local;
mod made;
mod run;

pub use local::{Call, Local, Table};
pub use made::locals_of;
pub use run::Locals;
