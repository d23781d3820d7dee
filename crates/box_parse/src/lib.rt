//! Commands of boxes: their texts read, each other text refused at its very byte, and their
//! canonical texts written.
#![tactic(auto)]

mod fault;
pub mod laws;
mod parsing;
mod reader;
mod showing;
mod stop;
mod token;

pub use fault::BoxFault;
pub use parsing::parse;
pub use showing::show;

#[cfg(test)]
mod tests;
