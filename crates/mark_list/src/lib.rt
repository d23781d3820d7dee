//! A list of marks that grows at its end: how many are set before a place, and where the k-th stands.
#![tactic(auto)]

mod marks;
mod numbers;
#[cfg(test)]
mod tests;

pub use marks::Marks;
