//! The arrays of a machine by their identifiers, within limits on their number and their words, and
//! the rule by which identifiers are handed out.
#![tactic(auto)]

mod fault;
pub mod laws;
mod store;
#[cfg(test)]
mod tests;

pub use fault::StoreFault;
pub use store::{MOST_ARRAYS, MOST_WORDS, Store};
