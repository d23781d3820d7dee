ghost use Rattle.std.specs.Prelude.{◌≡◌, ℕ, List, Result};
ghost use Rattle.two_d.specs.Cells.{Grid};
ghost use Rattle.two_d.specs.Faults.{TextFault};
ghost use Rattle.two_d.specs.Places.{Rect};
ghost use Rattle.two_d.specs.Program.{CommandOf, program_of};
ghost use Rattle.two_d.specs.Programs.{Program};
ghost use Rattle.two_d.specs.Trees.{Form};

/// A box has a command, or a fault at a byte of its text, and one of these alone.
pub fn each_box_has_one_command()
    ensures some { (grid : Grid) (b : Rect) → (r : Result Form TextFault) × CommandOf grid b r }
    ensures one { (grid : Grid) (b : Rect) (r s : Result Form TextFault) → CommandOf grid b r →
        CommandOf grid b s → r ≡ s }
{}

/// Each text has exactly one reading: one program, or one first fault.
pub fn each_text_has_one_reading()
    ensures { (text : List ℕ) → (r : Result Program TextFault) × program_of text r ×
        ((s : Result Program TextFault) → program_of text s → r ≡ s) }
{}
