//! The program's one call: the words of a command line in, bytes and a status out.
#![tactic(auto)]

mod asm;
mod check;
mod compile;
mod debug;
mod dis;
mod draw;
mod end;
mod eval;
mod evaluating;
pub mod laws;
mod line;
mod reading;
mod refusal;
mod resume;
mod run;
mod save;
mod selftest;
mod sending;
mod skipping;
mod starting;
mod status;
mod top;
mod trace;
mod types;
mod words;

pub use status::Status;
pub use top::codex;
