//! The boxes for which a box waits along its wires, back to itself.
#![tactic(auto)]

mod path;
mod ring;
mod search;

pub use ring::ring_of;

#[cfg(test)]
mod tests;
