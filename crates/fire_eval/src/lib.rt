//! Evaluation in any order of ready events, with a budget and a log.
#![tactic(auto)]

mod picks;
mod report;
mod run;
#[cfg(test)]
mod tests;

pub use picks::Picks;
pub use report::{EvalFault, Report};
pub use run::eval;
