ghost use Rattle.std.specs.Prelude.{◌≤◌, All, Ok};
ghost use Rattle.two_d.specs.Good.{IsGood};
ghost use Rattle.two_d.specs.Program.{program_of};
ghost use Rattle.two_d.specs.Programs.{Program};
ghost use Rattle.two_d.specs.Sound.{LeadsOn};
ghost use Rattle.grid_draw.specs.Answers.{NoneTooWide, size};
ghost use Rattle.grid_draw.specs.Layout.{drawing_of};

/// What is drawn is read back: where a wire begins at each entry, and the drawing is no wider and no
/// longer than a grid may be.
#[tactic(auto, using(crate::proofs::ReadsBack::law))]
pub fn drawing_reads_back()
    ensures { (P : Program) → IsGood P → All LeadsOn P → NoneTooWide P → size P ≤ 262144 →
        program_of (drawing_of P) (Ok P) }
{}
