//! The values that grids compute on: shared nodes in a store, their printing and their reading.
#![tactic(auto)]

pub mod laws;
mod print;
mod read;
mod shape;
mod store;
#[cfg(test)]
mod tests;
mod writing;

pub use print::PrintFault;
pub use read::ValueFault;
pub use shape::Shape;
pub use store::ValueStore;
pub use writing::put_all;
