//! Evaluation, event by event: instances, what their wires carry, and what is ready.
#![tactic(auto)]

mod act;
mod evaluation;
mod event;
mod instances;
mod kept;
pub mod laws;
mod look;
mod outcomes;
mod plain;
mod ready;
mod rows;
#[cfg(test)]
mod tests;

pub use evaluation::Core;
pub use event::Event;
pub use plain::{Meant, mean};
