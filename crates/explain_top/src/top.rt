//! The program's one call.

ghost use Rattle.std.specs.Prelude.{◌≡◌, ◌<◌, ◌^◌, map, string_bytes};
ghost use Rattle.explain_top.specs.Outside.{shelved, told};
ghost use Rattle.explain_top.specs.Explaining as plain;
ghost use Rattle.explain_top.specs.Explaining.{DrawingShown, Explained, IsPut, IsTold, ListingShown};
ghost use Rattle.explain_top.specs.Explaining.{PageShown, ProgramShown, StuckShown, TextListed, TextRead};

use crate::Status;
use crate::help::help;
use crate::words::{Job, job_of};
use asm_view::{Answer as TextAnswer, asm_page};
use fault_view::{Answer, PageFault, grid_page};
use std::alloc::Global;
use stuck_view::{Answer as StuckAnswer, stuck_page};
use umix_base::{Failed, Memory, Shelf, ShelfFault, Sink};

/// The most bytes of a drawing.
const MOST_GRID_BYTES: usize = 262_144;

/// The most bytes of an assembly text.
const MOST_TEXT_BYTES: usize = 300_000_000;

/// The line of a longer one.
const TEXT_TOO_LONG: &str = "refused 46 TextTooLong\n";

/// Does what the words of a command line ask for, without the program's name: writes the page of a
/// file to the output, or the help text; and to `err` the help text where the words ask for nothing
/// that is known, or a line where the file wasn't read or the page wasn't written whole. Linear in
/// the file, but for what a check takes and, for `stuck`, an evaluation. See docs/EXPLAIN.md.
pub fn explain<F: Shelf, O: Sink, E: Sink>(
    alloc: Global,
    words: &Vec<String>,
    shelf: &mut F,
    out: &mut O,
    err: &mut E,
) -> Status
    ensures { Explained (map string_bytes words.now.items)
        (shelved F.Shelf shelf.old) (shelved F.Shelf shelf.new)
        (told O.Sink out.old) (told O.Sink out.new)
        (told E.Sink err.old) (told E.Sink err.new) result }
{
    match job_of(words) {
        Some(Job::Grid { file }) => {
            let status = show_grid(alloc, file, shelf, out);
            tell(status, err)
        }
        Some(Job::Stuck { file }) => {
            let status = show_stuck(alloc, file, shelf, out);
            tell(status, err)
        }
        Some(Job::Asm { file }) => {
            let status = show_listing(alloc, file, shelf, out);
            tell(status, err)
        }
        Some(Job::Help) => put(help(), Status::Done, out),
        None => put(help(), Status::Usage, err),
    }
}

/// Writes the page of the drawing in the file.
fn show_grid<F: Shelf, O: Sink>(alloc: Global, file: &str, shelf: &mut F, out: &mut O) -> Status
    ensures { PageShown file.now (shelved F.Shelf shelf.old) (shelved F.Shelf shelf.new)
        (told O.Sink out.old) (told O.Sink out.new) result }
{
    match read_text(alloc, MOST_GRID_BYTES, file, shelf) {
        Ok(text) => show_drawing(alloc, &text, out),
        Err(status) => status,
    }
}

/// Writes the page of a drawing.
fn show_drawing<O: Sink>(alloc: Global, text: &[u8], out: &mut O) -> Status
    ensures { DrawingShown text.now (told O.Sink out.old) (told O.Sink out.new) result }
{
    match grid_page(alloc, text, out) {
        Ok(Answer::Program) => Status::Done,
        Ok(Answer::Refused) => Status::Refused,
        Err(PageFault::Failed) => Status::WriteFault,
        Err(PageFault::Memory) => Status::Memory,
    }
}

/// Writes where the program of the drawing in the file is stuck, or the page of a drawing that has none.
fn show_stuck<F: Shelf, O: Sink>(alloc: Global, file: &str, shelf: &mut F, out: &mut O) -> Status
    ensures { StuckShown file.now (shelved F.Shelf shelf.old) (shelved F.Shelf shelf.new)
        (told O.Sink out.old) (told O.Sink out.new) result }
{
    match read_text(alloc, MOST_GRID_BYTES, file, shelf) {
        Ok(text) => show_program(alloc, &text, out),
        Err(status) => status,
    }
}

/// Writes where the program of a drawing is stuck, or the page of a drawing that has none.
fn show_program<O: Sink>(alloc: Global, text: &[u8], out: &mut O) -> Status
    ensures { ProgramShown text.now (told O.Sink out.old) (told O.Sink out.new) result }
{
    match stuck_page(alloc, text) {
        Ok(page) => match ending_of(page.answer) {
            Some(status) => send(&page.bytes, status, out),
            None => show_drawing(alloc, text, out),
        },
        Err(Memory) => Status::Memory,
    }
}

/// The status that tells how a program ends, where there is one.
fn ending_of(answer: StuckAnswer) -> Option<Status>
    ensures { result ≡ plain.ending_of answer }
{
    match answer {
        StuckAnswer::Value => Some(Status::Done),
        StuckAnswer::Stuck => Some(Status::Stuck),
        StuckAnswer::Unended => Some(Status::Budget),
        StuckAnswer::Refused => None,
    }
}

/// Writes the page of the assembly text in the file, or the line that tells that it is too long.
fn show_listing<F: Shelf, O: Sink>(alloc: Global, file: &str, shelf: &mut F, out: &mut O) -> Status
    ensures { ListingShown file.now (shelved F.Shelf shelf.old) (shelved F.Shelf shelf.new)
        (told O.Sink out.old) (told O.Sink out.new) result }
{
    match read_text(alloc, MOST_TEXT_BYTES, file, shelf) {
        Ok(text) => list_text(alloc, &text, out),
        Err(status) => status,
    }
}

/// Writes the page of an assembly text, or the line that tells that it is too long.
fn list_text<O: Sink>(alloc: Global, text: &[u8], out: &mut O) -> Status
    ensures { TextListed text.now (told O.Sink out.old) (told O.Sink out.new) result }
{
    if text.len() > MOST_TEXT_BYTES {
        return put(TEXT_TOO_LONG, Status::Refused, out);
    }
    match asm_page(alloc, text) {
        Ok(page) => send(&page.bytes, status_of(page.answer), out),
        Err(Memory) => Status::Memory,
    }
}

/// The status that tells an answer to an assembly text.
fn status_of(answer: TextAnswer) -> Status
    ensures { result ≡ plain.status_of answer }
{
    match answer {
        TextAnswer::Accepted => Status::Done,
        TextAnswer::Refused => Status::Refused,
    }
}

/// The bytes of the file, of which one more is read at most than there may be, or the status that
/// tells why there are none.
fn read_text<F: Shelf>(
    alloc: Global,
    most: usize,
    file: &str,
    shelf: &mut F,
) -> Result<Vec<u8>, Status>
    requires { most < 2 ^ 32 }
    ensures { TextRead most file.now (shelved F.Shelf shelf.old) (shelved F.Shelf shelf.new) result }
{
    match shelf.read(alloc, file, most + 1) {
        Ok(bytes) => Ok(bytes),
        Err(ShelfFault::Failed) => Err(Status::ReadFault),
        Err(ShelfFault::Memory) => Err(Status::Memory),
    }
}

/// Writes the line of the status on `err`, where it has one.
fn tell<E: Sink>(status: Status, err: &mut E) -> Status
    ensures { IsTold status (told E.Sink err.old) (told E.Sink err.new) result }
{
    match status.line() {
        Some(line) => put(line, status, err),
        None => status,
    }
}

/// Writes the text, and gives the status, or that the text couldn't be written.
fn put<S: Sink>(text: &str, status: Status, sink: &mut S) -> Status
    ensures { IsPut text.now status (told S.Sink sink.old) (told S.Sink sink.new) result }
{
    send(text.as_bytes(), status, sink)
}

/// Writes the bytes, and gives the status, or that they couldn't be written.
fn send<S: Sink>(bytes: &[u8], status: Status, sink: &mut S) -> Status
    ensures { IsPut bytes.now status (told S.Sink sink.old) (told S.Sink sink.new) result }
{
    match sink.put(bytes) {
        Ok(()) => status,
        Err(Failed) => Status::WriteFault,
    }
}
