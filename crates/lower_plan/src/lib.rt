//! Plans: which slot each wire of a module has, and the order in which its boxes have their turns.
#![tactic(auto)]

mod plan;
mod planning;
mod slots;
#[cfg(test)]
mod tests;

pub use plan::{Plan, PlanStep};
pub use planning::plans;
