//! The outside as the other crates see it: a source of bytes, a sink for bytes and a shelf of files,
//! which may fail and count that they did, over the system and in memory; and places and limits.
#![tactic(auto)]

mod limits;
mod mem_shelf;
mod mem_sink;
mod mem_source;
mod memory;
mod place;
mod real_in;
mod real_out;
mod real_shelf;
mod shelf;
mod sink;
mod source;
mod sure_source;
mod text_sink;

pub use limits::Limits;
pub use mem_shelf::{MemShelf, ShelfFail};
pub use mem_sink::MemSink;
pub use mem_source::MemSource;
pub use memory::Memory;
pub use place::Place;
pub use real_in::RealIn;
pub use real_out::RealOut;
pub use real_shelf::RealShelf;
pub use shelf::{Shelf, ShelfFault};
pub use sink::Sink;
pub use source::Source;
pub use sure_source::SureSource;
pub use text_sink::TextSink;

/// The outside failed.
#[derive(Clone, Copy, PartialEq, Eq, Debug, Drop)]
pub struct Failed;
