//! What is wrong with a drawing, shown to a reader: the line that `check` prints, a picture of the
//! place, and a sentence on what usually is wrong.
#![tactic(auto)]

mod breaks;
mod found;
mod hints;
mod page;
mod pages;
mod parts;
mod pictures;
mod subject;

pub use page::{Answer, PageFault, grid_page};

#[cfg(test)]
mod tests;
