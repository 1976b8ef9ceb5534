//! Laws of what snapshot runs may lose: nothing of an update that is older than the bound.
//!
//! Each law is the contract of a function that does nothing, as in `proto_safety`, on whose inductions these rest.
#![tactic(auto)]

pub mod linked;
pub mod losses;
pub mod told;
