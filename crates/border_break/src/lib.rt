//! Where the border of a frame or of a box breaks that doesn't close.
#![tactic(auto)]

mod border;
mod breaks;
mod figure;
mod laws;

pub use breaks::break_of;
pub use figure::{Break, Figure, Side};
pub use laws::{closing_boxes_have_none, closing_frames_have_none, one_break};

#[cfg(test)]
mod tests;
