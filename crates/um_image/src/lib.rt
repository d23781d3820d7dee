//! Images of a machine: the bytes that tell its whole state and how much of its input it has taken,
//! the machine of such bytes, and runs that count the bytes that they take.
#![tactic(auto)]

mod counting;
mod fault;
pub mod laws;
mod numbers;
mod reading;
#[cfg(test)]
mod tests;
mod writing;

pub use counting::run_counted;
pub use fault::ImageFault;
pub use numbers::{HEAD_LENGTH, IMAGE_MARK, MOST_IMAGE_BYTES, MOST_SAVED_CYCLES};
pub use reading::read_image;
pub use writing::image;
