//! The command `type`: checks a program against a sheet of types.

ghost use Rattle.std.specs.Prelude.{◌≡◌};
ghost use Rattle.codex_top.specs.Commands.{TypeEnds};
ghost use Rattle.codex_top.specs.Outside.{shelved, told, IsOnlyRead, IsStreamCounted};
ghost use Rattle.codex_top.specs.TypeCommand as plain;

use crate::end::End;
use crate::reading::{read_program, read_types};
use crate::refusal::sheet_line;
use crate::sending::send_last;
use itoa::Buffer;
use std::alloc::Global;
use type_sheet::{Line, SheetRow, fits};
use umix_base::{Shelf, Sink};

/// Checks the program in a file against the sheet of types in another, and writes the numbers of
/// the program's modules and of the sheet's types. See docs/TYPES.md.
pub fn types<F: Shelf, O: Sink>(
    alloc: Global,
    file: &str,
    sheet: &str,
    shelf: &mut F,
    out: &mut O,
) -> End
    ensures ends { TypeEnds file.now sheet.now
        (shelved F.Shelf shelf.old) (shelved F.Shelf shelf.new)
        (told O.Sink out.old) (told O.Sink out.new) result }
    ensures shelf { IsOnlyRead (shelved F.Shelf shelf.old) (shelved F.Shelf shelf.new) }
    ensures counted { IsStreamCounted (told O.Sink out.old) (told O.Sink out.new) }
{
    let program = read_program(alloc, file, shelf)?;
    let sheet = read_types(alloc, &program, sheet, shelf)?;
    if let Err(fault) = fits(alloc, &program, &sheet) {
        return Err(sheet_line(alloc, &program, fault));
    }
    let mut first = Buffer::new();
    let mut second = Buffer::new();
    let modules = first.format(program.modules().len()).as_bytes();
    let kinds = second.format(count_types(sheet.rows())).as_bytes();
    send_last(
        out,
        &[b"typed ", modules, b" modules, ", kinds, b" types\n"],
    )
}

// the number of types that rows declare
fn count_types(rows: &[SheetRow]) -> usize
    ensures { result ≡ plain.types_in rows.now }
{
    let mut types = 0;
    for row in rows {
        if is_type(&row.line) {
            types += 1;
        }
    }
    types
}

// whether the line declares a type
fn is_type(line: &Line) -> bool
    ensures { result ≡ plain.is_type line.now }
{
    matches!(line, Line::Kind(..))
}
