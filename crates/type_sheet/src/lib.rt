//! Types for grids: sheets of declared types, and whether a program fits one.
#![tactic(auto)]

mod declared;
mod fault;
mod fitting;
mod index;
pub mod laws;
mod line;
mod lines;
mod needs;
mod reading;
mod sheet;
#[cfg(test)]
mod tests;
mod tokens;
mod typing;
mod wired;

pub use fault::{At, SheetFault};
pub use fitting::fits;
pub use line::{Form, Line, SheetRow};
pub use sheet::{Sheet, read_sheet};
