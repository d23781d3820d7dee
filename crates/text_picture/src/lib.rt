//! Pictures of the rows of a text around a place: with row numbers, a ruler of columns, and a mark
//! under the place.
#![tactic(auto)]

mod around;
mod laws;
mod lines;
mod rows;

pub use around::picture;
pub use laws::lines_are_short;

#[cfg(test)]
mod tests;
