//! A report is judged against the events of its schedule: what it reads as, and whether one switch that never fails could have shown it.
#![tactic(auto)]

mod feeds;
mod judgement;
mod laws;
mod typed;

pub use judgement::{JudgeEnd, judge};
pub use laws::{
    judgements_are_one, legal_lines_are_judged_legal, reports_of_runs_are_judged_legal,
};
pub use typed::line_is_typed;

#[cfg(test)]
mod tests;
