//! Grids from a number: large programs that are known to be good, each with its value.
//! docs/GENERATED.md says which.
#![tactic(auto)]

mod generating;
pub mod laws;
mod lines;

pub use generating::{generate, list_words};

#[cfg(test)]
mod tests;
