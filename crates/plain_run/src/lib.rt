//! What one switch that never fails makes of a schedule: each packet that is fed is processed at once, on the cells of its flow.
#![tactic(auto)]

mod app;
mod flow;
mod switch;

pub use app::PlainApp;
pub use switch::PlainSwitch;
