//! The grid language: its types, and the definitions of what a drawn program is.
#![tactic(auto)]

mod command;
pub mod laws;
mod module;
mod name;
mod names;
mod order;
mod outcome;
mod pieces;
mod program;
mod ring;
mod soundness;
mod table;
mod texts;
mod trail;
mod trail_store;

pub use command::{Command, Exp, Side};
pub use module::{BoxRow, Module, Origin, To};
pub use name::Name;
pub use outcome::Outcome;
pub use program::Program;
pub use table::{TableFault, good_program};
pub use texts::text;
pub use trail::{Site, Trail};
pub use trail_store::TrailStore;
