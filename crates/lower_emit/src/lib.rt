//! The code of a module's block, and what it does.
#![tactic(auto)]

mod block;
mod bodies;
mod code;
mod ends;
pub mod laws;
mod owner;
mod parts;
mod places;
mod steps;

pub use block::{Table, emit, emit_with};
pub use parts::{frame_sizes, part_of};
