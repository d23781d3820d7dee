//! What the program `explain` does: words in, a page and a status out.
#![tactic(auto)]

mod help;
mod status;
mod top;
mod words;

pub use status::Status;
pub use top::explain;

#[cfg(test)]
mod tests;
