//! Laws of types.

ghost use Rattle.std.specs.Prelude.{◌≡◌, ◌↔◌, ℕ, true, List, Result, Ok, Err};
ghost use Rattle.two_d.specs.Good.{IsGood};
ghost use Rattle.two_d.specs.Programs.{ModuleForm, Program};
ghost use Rattle.two_d.specs.Sound.{Comes};
ghost use Rattle.two_d.specs.declared.module.Origin.{Origin};
ghost use Rattle.two_d.specs.declared.module.To.{To};
ghost use Rattle.type_sheet.specs.declared.fault.SheetFault.{SheetFault};
ghost use Rattle.type_sheet.specs.declared.line.Line.{Line};
ghost use Rattle.type_sheet.specs.declared.line.SheetRow.{SheetRow};
ghost use Rattle.type_sheet.specs.Fits.{fits_of, TellsPlace};
ghost use Rattle.type_sheet.specs.Lines.{IsTextOf};
ghost use Rattle.type_sheet.specs.Safety.{IsSafe};
ghost use Rattle.type_sheet.specs.Sheets.{sheet_of};
ghost use Rattle.type_sheet.specs.Wires.{is_wired};

/// In no state of a program that fits is a box stuck by the shape of a value; each value on a wire
/// has the wire's type, and the outcome is of main's result type or stuck by results.
pub fn what_fits_is_safe()
    ensures { (P : Program) (rows : List SheetRow) → IsGood P → fits_of P rows (Ok tt) →
        IsSafe P rows }
{}

/// A text is the text of at most one line.
pub fn one_line()
    ensures { (text : List ℕ) (l m : Line) → IsTextOf text l → IsTextOf text m → l ≡ m }
{}

/// A text has exactly one answer: a sheet or one first fault. A program has one answer to a sheet:
/// it fits, or there is one first reason why not.
pub fn one_answer()
    ensures sheet { (text : List ℕ) (r s : Result (List SheetRow) SheetFault) → sheet_of text r →
        sheet_of text s → r ≡ s }
    ensures some_sheet { (text : List ℕ) →
        (r : Result (List SheetRow) SheetFault) × sheet_of text r }
    ensures fit { (P : Program) (rows : List SheetRow) (r s : Result (Unit {0}) SheetFault) →
        fits_of P rows r → fits_of P rows s → r ≡ s }
    ensures some_fit { (P : Program) (rows : List SheetRow) → IsGood P →
        (r : Result (Unit {0}) SheetFault) × fits_of P rows r }
{}

/// The place that a fault tells is in the program; a fault of a text tells none.
pub fn places_are_there()
    ensures fit { (P : Program) (rows : List SheetRow) (fault : SheetFault) →
        fits_of P rows (Err fault) → TellsPlace P fault }
    ensures sheet { (P : Program) (text : List ℕ) (fault : SheetFault) →
        sheet_of text (Err fault) → TellsPlace P fault }
{}

/// A side is wired exactly where an end of a wire comes from it.
pub fn wires_lead_somewhere()
    ensures { (m : ModuleForm) (o : Origin) →
        (is_wired m o ≡ true) ↔ ((end : To) × Comes m o end) }
{}
