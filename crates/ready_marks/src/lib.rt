//! The ready events of an instance table as marks: one for each box of each instance and one for its end,
//! in the order of the events; and where the wires of modules lead.
#![tactic(auto)]

mod slots;
mod ways;

pub use slots::Slots;
pub use ways::{Ways, all_ways};
