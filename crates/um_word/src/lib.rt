//! The words of a scroll: operators and platters, the bytes of words, and the definition of the machine
//! that runs them.
#![tactic(auto)]

pub mod laws;
mod op;
mod scroll;

pub use op::{Op, decode, encode};
pub use scroll::{MOST_SCROLL_BYTES, MOST_SCROLL_WORDS, ScrollFault, bytes_of, words_of};
