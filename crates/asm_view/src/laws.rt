//! Laws of pages, each a function with an empty body whose contract is the law.

ghost use Rattle.std.specs.Prelude.{ℕ, List, ◌<◌, ◌≤◌, ◌^◌, length};
ghost use Rattle.um_asm.specs.declared.fault.AsmFault.{AsmFault as Fault};
ghost use Rattle.um_asm.specs.declared.text_line.Head.{Head as Begin};
ghost use Rattle.um_asm.specs.declared.text_line.TextLine.{TextLine as Line};
ghost use Rattle.asm_view.specs.Hints.{hint_of};
ghost use Rattle.asm_view.specs.Rows.{more_row, plain_row, row};

/// No line of a page has more than 100 columns, where numbers and places have at most nine digits: a
/// text of 300,000,000 bytes has no more.
pub fn rows_are_short()
    ensures row { (words : List ℕ) (l : Line (List ℕ)) → l.number < 10 ^ 9 → l.place < 10 ^ 9 →
        length (row words l) ≤ 100 }
    ensures more { (words : List ℕ) (base at : ℕ) → at < 10 ^ 9 → length (more_row words base at) ≤ 100 }
    ensures plain { (l : Line (List ℕ)) → l.number < 10 ^ 9 → length (plain_row l) ≤ 100 }
    ensures hint { (f : Fault) (h : Begin (List ℕ)) → length (hint_of f h) ≤ 100 }
{}
