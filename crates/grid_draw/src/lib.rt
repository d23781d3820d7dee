//! Programs drawn as grids in one fixed layout: docs/GRID.md, "Drawing".
#![tactic(auto)]

mod cells;
mod course;
mod drawing;
pub mod laws;
mod layout;
mod page;
mod sheet;

pub use drawing::{DrawFault, draw};

#[cfg(test)]
mod tests;
