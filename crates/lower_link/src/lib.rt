//! The scroll of a program: boot, blocks and printer.
#![tactic(auto)]

ghost use Rattle.lower_link.specs.Completes.{CompletesLaw};

mod compiler;
mod draft;
mod linking;
mod measure;
mod printer;
mod scroll;
mod table;
#[cfg(test)]
mod tests;
mod texts;

pub use compiler::compile;
pub use linking::Linked;
pub use measure::weight;

/// Under limits that are large enough, words that realise and follow a program with an outcome come
/// to its text. See "What is promised" in docs/COMPILED.md.
#[tactic(auto, using(crate::proofs::Completed::completes))]
pub fn completes_law()
    ensures completes { CompletesLaw }
{}
