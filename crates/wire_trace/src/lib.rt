//! The wires of a module: where each begins and where it ends, or the first fault of ports, wires
//! and stray cells, as the definitions in `two_d` say.
#![tactic(auto)]

mod area;
mod ends;
mod fault;
mod marks;
mod owners;
mod ports;
mod position;
mod sheet;
mod sides;
mod starts;
mod stray;
mod takers;
mod trace;
mod wire;

pub use fault::WireFault;
pub use wire::{Wire, wires};

#[cfg(test)]
mod tests;
