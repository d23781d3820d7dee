//! Laws of what stands in arrays.
ghost use Rattle.lower_emit.specs.Growing.{OnlyGrows};

/// The relation by which arrays stand for values and trails only grows: what stands goes on standing, at each
/// moment of a block's own and over each answer. See "Arrays" in docs/COMPILED.md.
#[tactic(auto, using(crate::proofs::Growing::only_grows))]
pub fn what_stands_stays()
    ensures { OnlyGrows }
{}
