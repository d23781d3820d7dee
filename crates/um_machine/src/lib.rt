//! The machine: cycles by the table, and runs of many cycles, over a source and a sink.
#![tactic(auto)]

pub mod laws;
mod machine;
mod saved;
mod stop;
#[cfg(test)]
mod tests;

pub use machine::Machine;
pub use saved::Saved;
pub use stop::{Stop, Turn};
