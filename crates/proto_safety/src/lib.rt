//! Laws of every run: what holds after each list of events, whatever fails, is lost, repeated or delayed.
//!
//! Each law is the contract of a function that does nothing. None speaks of code: they are laws of the definitions to
//! which the contracts of the nodes and of the world bind the code.
#![tactic(auto)]

pub mod books;
pub mod cells;
pub mod changes;
pub mod first_facts;
pub mod lease_basis;
pub mod leases;
pub mod legal;
pub mod linked;
pub mod losses;
pub mod marks;
pub mod replies;
pub mod reports;
pub mod requests;
pub mod rows;
pub mod sizes;
pub mod straight;
pub mod worked_rows;
