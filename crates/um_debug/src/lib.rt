//! The debugger of the machine: a session of command lines, with breakpoints and watches.
#![tactic(auto)]

mod command;
mod course;
mod debugger;
mod line;
mod points;
mod replies;
mod session;
#[cfg(test)]
mod tests;

pub use debugger::{DebugEnd, debug};
