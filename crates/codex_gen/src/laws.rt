ghost use Rattle.codex_gen.specs.Answers.{IsGenerated};
ghost use Rattle.codex_gen.specs.Generated.{grid_of_number, value_of_number};
ghost use Rattle.std.specs.Prelude.{ℕ};

/// The grid of each number has a program, which gives the value that its forms make of `()`.
/// docs/GENERATED.md, "What is promised".
#[tactic(auto, using(crate::proofs::GeneratedLaws::generated))]
pub fn each_number_has_its_program()
    ensures { (number : ℕ) → IsGenerated (grid_of_number number) (value_of_number number) }
{}
