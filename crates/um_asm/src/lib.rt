//! The assembly text of the machine: texts to words, and words to texts.
#![tactic(auto)]

mod assembler;
mod fault;
mod labels;
pub mod laws;
mod line;
mod lines;
mod listing;
mod mnemonic;
mod number;
mod position;
mod reading;
#[cfg(test)]
mod tests;
mod text_line;
mod token;

pub use assembler::assemble;
pub use fault::AsmFault;
pub use listing::disassemble;
pub use text_line::{Head, TextLine, text_lines};
