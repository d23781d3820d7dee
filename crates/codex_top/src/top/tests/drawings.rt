//! Worked rows of `draw`.

use super::grids::{ADDITION, SMALLEST, SUM, bytes_of_lines};
use super::{USAGE, check, command, words, words_of_row};
use crate::{Status, codex};
use std::alloc::Global;
use std::process::Abort;
use std::test::Fail;
use umix_base::{MemShelf, MemSink, MemSource};

/// The drawing of the smallest grid.
pub(super) const DRAWN: &[&str] = &[
    ",......................,",
    ":main                  :",
    ":                      :",
    ":                      :",
    ":                      :",
    ":                      :",
    ":   *=============*    :",
    ":   !send [((),E)]!--+ :",
    ":   *=============*  | :",
    ":                    | :",
    ":                    | :",
    ":                    +--",
    "'......................'",
];

// what `draw` of a file writes, with nothing on `err`, and over an input that would fail
fn drawn<R: Abort + AllocGlobal>(rt: &R, file: Vec<u8>) -> Result<Vec<u8>, Fail> {
    let alloc = rt.alloc();
    let words = words_of_row(alloc, &["draw", "f"])?;
    let mut shelf = MemShelf::new(alloc, Vec::new(alloc));
    shelf.place("f", file)?;
    let mut input = MemSource::new(Vec::new(alloc), vec![in alloc; 0]?);
    let mut out = MemSink::new(alloc, 262_144, Vec::new(alloc))?;
    let mut err = MemSink::new(alloc, 1000, Vec::new(alloc))?;
    let status = codex(alloc, &words, &mut shelf, &mut input, &mut out, &mut err);
    assert_eq!(rt; err.bytes().len(), 0);
    assert_eq!(rt; status, Status::Done);
    Ok(out.bytes().to_vec(alloc)?)
}

#[test]
fn smallest_grid(rt: HostRuntime) -> Result<(), Fail> {
    let file = bytes_of_lines(rt.alloc(), &[SMALLEST])?;
    let drawing = bytes_of_lines(rt.alloc(), &[DRAWN])?;
    assert_eq!(rt; drawing.len(), 325);
    assert_eq!(rt; drawn(&rt, file)?, drawing);
    Ok(())
}

#[test]
fn drawing_of_a_drawing(rt: HostRuntime) -> Result<(), Fail> {
    let alloc = rt.alloc();
    let drawing = drawn(&rt, bytes_of_lines(alloc, &[ADDITION])?)?;
    assert_eq!(rt; drawing.len(), 3460);
    assert_eq!(rt; drawn(&rt, drawing.as_slice().to_vec(alloc)?)?, drawing);
    let mut shelf = MemShelf::new(alloc, Vec::new(alloc));
    shelf.place("f", drawing)?;
    command(
        &rt,
        &mut shelf,
        &["check", "f"],
        "ok 2 7\n",
        "",
        Status::Done,
    )?;
    command(&rt, &mut shelf, &["eval", "f"], SUM, "", Status::Done)
}

// a line of a row of boxes: what the first has, what each other has, and the right border
fn push_line(
    file: &mut Vec<u8>,
    first: &[u8],
    other: &[u8],
    others: u32,
    border: &[u8],
) -> Result<(), Fail> {
    file.extend_from_slice(first)?;
    for _ in 0..others {
        file.extend_from_slice(other)?;
    }
    file.extend_from_slice(border)?;
    Ok(())
}

// a row of boxes from the left to an exit: the first sends `()`, and each hands on what comes
fn push_row(file: &mut Vec<u8>, others: u32) -> Result<(), Fail> {
    push_line(
        file,
        b": *============*",
        b"  *===========*",
        others,
        b":\n",
    )?;
    push_line(
        file,
        b": !send[((),E)]!",
        b"->!send[(W,E)]!",
        others,
        b"-\n",
    )?;
    push_line(
        file,
        b": *============*",
        b"  *===========*",
        others,
        b":\n",
    )
}

// so many rows of boxes
fn module_of_rows(alloc: Global, rows: u32, others: u32) -> Result<Vec<u8>, Fail> {
    let mut file = Vec::new(alloc);
    push_line(
        &mut file,
        b",...............",
        b"...............",
        others,
        b",\n",
    )?;
    push_line(
        &mut file,
        b":main           ",
        b"               ",
        others,
        b":\n",
    )?;
    for _ in 0..rows {
        push_row(&mut file, others)?;
    }
    push_line(
        &mut file,
        b"'...............",
        b"...............",
        others,
        b"'\n",
    )?;
    Ok(file)
}

// `draw` of so many rows of boxes is refused with this line
fn refused<R: Abort + AllocGlobal>(rt: &R, rows: u32, others: u32, line: &str) -> Result<(), Fail> {
    let mut shelf = MemShelf::new(rt.alloc(), Vec::new(rt.alloc()));
    shelf.place("f", module_of_rows(rt.alloc(), rows, others)?)?;
    command(rt, &mut shelf, &["draw", "f"], "", line, Status::Refused)
}

#[test]
fn drawing_too_long(rt: HostRuntime) -> Result<(), Fail> {
    refused(&rt, 1, 260, "refused 62 DrawTooLong 1140685\n")
}

#[test]
fn drawing_too_wide(rt: HostRuntime) -> Result<(), Fail> {
    refused(&rt, 8, 259, "refused 61 DrawTooWide 1\n")
}

#[test]
fn faulty_words(rt: HostRuntime) -> Result<(), Fail> {
    check(&rt, &words(&["draw"], b"", USAGE, Status::Usage))?;
    check(&rt, &words(&["draw", "f", "g"], b"", USAGE, Status::Usage))
}
