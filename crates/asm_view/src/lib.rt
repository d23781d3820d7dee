//! The page of an assembly text: its listing, or its first faulty line with what it would have been.
#![tactic(auto)]

mod hints;
mod laws;
mod listing;
mod page;
mod refused;
mod rows;

pub use laws::rows_are_short;
pub use page::{Answer, Page, asm_page};

#[cfg(test)]
mod tests;
