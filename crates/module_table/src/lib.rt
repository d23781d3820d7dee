//! The whole check of a drawn program: its modules, each with its boxes and its wires, or its first
//! fault, as the definitions in `two_d` say.
#![tactic(auto)]

mod checking;
mod commands;
mod corners;
mod drawing;
mod fault;
mod modules;
mod shape;

pub use checking::check;
pub use corners::{Corners, box_corner, frame_corner};
pub use drawing::drawn;
pub use fault::CheckFault;
pub use modules::Modules;

#[cfg(test)]
mod tests;
