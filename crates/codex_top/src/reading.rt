//! How the files of a command are read.

ghost use Rattle.std.specs.Prelude.{◌≤◌, ◌+◌, ◌<◌, ◌^◌, All, IfOk};
ghost use Rattle.two_d.specs.Sound.{LeadsOn};
ghost use Rattle.two_d.specs.Weights.{weight};
ghost use Rattle.codex_top.specs.Limits.{most_grid_bytes};
ghost use Rattle.codex_top.specs.Outside.{shelved, IsOnlyRead};
ghost use Rattle.codex_top.specs.Reading.{ProgramRead, ScrollRead, TextRead, InputRead, ImageRead};
ghost use Rattle.codex_top.specs.Reading.{SheetRead};
ghost use Rattle.codex_top.specs.inner.FirstBytes.{FirstRead};

use crate::line::Line;
use crate::refusal::{grid_line, input_too_long, sheet_line, text_too_long};
use module_table::check;
use std::alloc::Global;
use two_d::Program;
use type_sheet::Sheet;
use um_asm::assemble;
use um_image::{MOST_IMAGE_BYTES, read_image};
use um_machine::Machine;
use um_word::{MOST_SCROLL_BYTES, words_of};
use umix_base::{Shelf, ShelfFault};

/// The most bytes of a grid.
const MOST_GRID_BYTES: usize = 262_144;

/// The most bytes of a sheet of types.
const MOST_SHEET_BYTES: usize = 262_144;

/// The most bytes of an assembly text, enough for every listing.
pub const MOST_TEXT_BYTES: usize = 300_000_000;

/// The most bytes of the input of a scroll that is debugged.
pub const MOST_INPUT_BYTES: usize = 67_108_864;

/// The program of a file that is a grid, or the line that tells why there is none.
pub fn read_program<F: Shelf>(alloc: Global, file: &str, shelf: &mut F) -> Result<Program, Line>
    ensures read { ProgramRead file.now
        (shelved F.Shelf shelf.old) (shelved F.Shelf shelf.new) result }
    ensures weighs { IfOk result (λ program. weight program ≤ most_grid_bytes) }
    ensures entries { IfOk result (λ program. All LeadsOn program) }
    ensures shelf { IsOnlyRead (shelved F.Shelf shelf.old) (shelved F.Shelf shelf.new) }
{
    let bytes = read_file(alloc, file, MOST_GRID_BYTES, shelf)?;
    match check(alloc, &bytes) {
        Ok(program) => Ok(program),
        Err(fault) => Err(grid_line(fault)),
    }
}

/// The words of a file that is a scroll, or the line that tells why there are none.
pub fn read_scroll<F: Shelf>(alloc: Global, file: &str, shelf: &mut F) -> Result<Vec<u32>, Line>
    ensures read { ScrollRead file.now
        (shelved F.Shelf shelf.old) (shelved F.Shelf shelf.new) result }
    ensures shelf { IsOnlyRead (shelved F.Shelf shelf.old) (shelved F.Shelf shelf.new) }
{
    let bytes = read_file(alloc, file, MOST_SCROLL_BYTES, shelf)?;
    Ok(words_of(alloc, &bytes)?)
}

/// The words of the assembly text in a file, or the line that tells why there are none.
pub fn read_text<F: Shelf>(alloc: Global, file: &str, shelf: &mut F) -> Result<Vec<u32>, Line>
    ensures read { TextRead file.now
        (shelved F.Shelf shelf.old) (shelved F.Shelf shelf.new) result }
    ensures shelf { IsOnlyRead (shelved F.Shelf shelf.old) (shelved F.Shelf shelf.new) }
{
    let text = read_file(alloc, file, MOST_TEXT_BYTES, shelf)?;
    if text.len() > MOST_TEXT_BYTES {
        return Err(text_too_long());
    }
    Ok(assemble(alloc, &text)?)
}

/// The bytes of a file that is a scroll's input, or the line that tells why there are none.
pub fn read_input<F: Shelf>(alloc: Global, file: &str, shelf: &mut F) -> Result<Vec<u8>, Line>
    ensures read { InputRead file.now
        (shelved F.Shelf shelf.old) (shelved F.Shelf shelf.new) result }
    ensures shelf { IsOnlyRead (shelved F.Shelf shelf.old) (shelved F.Shelf shelf.new) }
{
    let bytes = read_file(alloc, file, MOST_INPUT_BYTES, shelf)?;
    if bytes.len() > MOST_INPUT_BYTES {
        return Err(input_too_long());
    }
    Ok(bytes)
}

/// The sheet of types of a file, for a program, or the line that tells why there is none.
pub fn read_types<F: Shelf>(
    alloc: Global,
    program: &Program,
    file: &str,
    shelf: &mut F,
) -> Result<Sheet, Line>
    ensures read { SheetRead program.now file.now
        (shelved F.Shelf shelf.old) (shelved F.Shelf shelf.new) result }
    ensures shelf { IsOnlyRead (shelved F.Shelf shelf.old) (shelved F.Shelf shelf.new) }
{
    let text = read_file(alloc, file, MOST_SHEET_BYTES, shelf)?;
    match type_sheet::read_sheet(alloc, &text) {
        Ok(sheet) => Ok(sheet),
        Err(fault) => Err(sheet_line(alloc, program, fault)),
    }
}

/// The machine of a file that is an image, and how many bytes of its input it has taken, or the line
/// that tells why there is none.
pub fn read_saved<F: Shelf>(
    alloc: Global,
    file: &str,
    shelf: &mut F,
) -> Result<(Machine, u64), Line>
    ensures read { ImageRead file.now (shelved F.Shelf shelf.old) (shelved F.Shelf shelf.new) result }
    ensures shelf { IsOnlyRead (shelved F.Shelf shelf.old) (shelved F.Shelf shelf.new) }
{
    let bytes = read_file(alloc, file, MOST_IMAGE_BYTES, shelf)?;
    Ok(read_image(alloc, &bytes)?)
}

// the bytes of a file, of which at most one more than `most` is read, or the line that tells why there are none
fn read_file<F: Shelf>(
    alloc: Global,
    file: &str,
    most: usize,
    shelf: &mut F,
) -> Result<Vec<u8>, Line>
    requires { most + 1 < 2 ^ 64 }
    ensures read { FirstRead most file.now
        (shelved F.Shelf shelf.old) (shelved F.Shelf shelf.new) result }
    ensures shelf { IsOnlyRead (shelved F.Shelf shelf.old) (shelved F.Shelf shelf.new) }
{
    match shelf.read(alloc, file, most + 1) {
        Ok(bytes) => Ok(bytes),
        Err(ShelfFault::Failed) => Err(Line::ReadFault),
        Err(ShelfFault::Memory) => Err(Line::NoMemory),
    }
}
