//! Reads a drawn program as far as its cells, its frames, and the name and the boxes of each frame.
//! Each call finds what the definitions in `two_d` say, or the first fault in their order.
#![tactic(auto)]

mod box_frame;
mod fault;
mod found;
mod frame;
mod grid;
mod module_name;
mod rect;
mod search;

pub use box_frame::{BoxFrame, boxes};
pub use fault::GridFault;
pub use frame::{Frame, frames};
pub use grid::{Grid, read_grid};
pub use module_name::name;

#[cfg(test)]
mod tests;
