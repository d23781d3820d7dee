ghost use Rattle.std.specs.Prelude.{◌≡◌, ◌+◌, ◌*◌, ◌≤◌, length, IfOk, OnOk};
ghost use Rattle.two_d.specs.Weights.{weight};
ghost use Rattle.lower_emit.specs.Tables.{IsLight};
ghost use Rattle.lower_link.specs.inner.Drafts.{DraftAdds};
ghost use Rattle.lower_link.specs.inner.Lines.{line_at, all_lines};
ghost use Rattle.lower_link.specs.inner.Printer.{print_value_code, printer_code, IsPrinter};

use crate::draft::Draft;
use crate::texts::texts_of;
use code_templates::{go_to_text, halt, start_text};
use std::alloc::Global;
use two_d::Program;
use umix_base::Memory;

/// Adds the part of the printer that prints values, which stands at place 15.
fn put_value_code(draft: &mut Draft) -> Result<(), Memory>
    ensures { OnOk result (DraftAdds draft.old draft.new print_value_code) }
{
    draft.branch_on_slot(0, 21, 43)?;
    draft.branch_on_slot(1, 27, 55)?;
    draft.branch_on_slot(2, 33, 67)?;
    draft.write(b"()")?;
    draft.pop_work()?;
    draft.write(b"Inl ")?;
    draft.go_to_part(0, 15)?;
    draft.write(b"Inr ")?;
    draft.go_to_part(1, 15)?;
    draft.write(b"(")?;
    draft.push_work(97)?;
    draft.push_work(91)?;
    draft.go_to_part(2, 15)?;
    draft.write(b",")?;
    draft.go_to_part(3, 15)?;
    draft.write(b")")?;
    draft.pop_work()
}

/// Adds the words that all printers have: behind these 147 stand the places of the texts.
pub(crate) fn put_core(draft: &mut Draft) -> Result<(), Memory>
    ensures { OnOk result (DraftAdds draft.old draft.new printer_code) }
{
    draft.put(&start_text(), [6, 108, 0, 0, 0, 0, 0, 0])?;
    draft.push_work(105)?;
    put_value_code(draft)?;
    draft.write(b"\n")?;
    draft.put(&halt(), [0, 0, 0, 0, 0, 0, 0, 0])?;
    draft.push_work(107)?;
    draft.push_work(142)?;
    draft.branch_on_slot(1, 132, 138)?;
    draft.pop_work()?;
    draft.go_to_part(1, 117)?;
    draft.put(&go_to_text(), [147, 0, 0, 0, 0, 0, 0, 0])
}

/// The printer's block for a program: its code, the places of the program's texts, and the texts.
pub(crate) fn printer(alloc: Global, program: &Program) -> Result<Vec<u32>, Memory>
    requires light { IsLight program.now }
    ensures code { IfOk result (λ words. IsPrinter words.items (line_at program.now)
        (length (all_lines program.now))) }
    ensures short { IfOk result (λ words. length words.items ≤ 147 + 16 * weight program.now) }
{
    let texts = texts_of(alloc, program)?;
    let mut draft = Draft::new(alloc);
    put_core(&mut draft)?;
    let first = draft.words.len() + texts.places.len();
    for place in &texts.places {
        draft.words.push((first + *place) as u32)?;
    }
    draft.words.extend_from_slice(texts.code.words.as_slice())?;
    Ok(draft.words)
}
