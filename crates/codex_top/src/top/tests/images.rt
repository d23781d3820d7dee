//! Rows of the commands that write an image and go on from one.

use super::grids::{ADDITION, STUCK_INSIDE, SUM, bytes_of_lines};
use super::{Fails, HELLO, Row, USAGE, check, command, words, words_of_row};
use crate::{Status, codex};
use std::alloc::Global;
use std::process::Abort;
use std::test::Fail;
use um_word::bytes_of;
use umix_base::{MemShelf, MemSink, MemSource, Memory};

/// The image of the first scroll after two cycles, byte for byte.
pub(super) const IMAGE: &[u8] = &[
    0x55, 0x4d, 0x49, 0x31, 0, 0, 0, 0x41, 0, 0, 0, 0, 0, 0, 0, 0, 0, 0, 0, 0, 0, 0, 0, 0, 0, 0, 0,
    0, 0, 0, 0, 0, 0, 0, 0, 0, 0, 0, 0, 2, 0, 0, 0, 0, 0, 0, 0, 2, 0, 0, 0, 0, 0, 0, 0, 0, 0, 0, 0,
    0, 0, 0, 0, 0, 0, 0, 0, 0, 0, 0, 0, 3, 0xd0, 0, 0, 0x41, 0xa0, 0, 0, 0, 0x70, 0, 0, 0,
];

const DIVIDES: &[u8] = &[0x50, 0, 0, 0];

// a scroll that writes its first two bytes of input
const ECHO: &[u8] = &[
    0xb0, 0, 0, 0, 0xa0, 0, 0, 0, 0xb0, 0, 0, 1, 0xa0, 0, 0, 1, 0x70, 0, 0, 0,
];

const SAVE: &[&str] = &["save", "f", "2", "o"];

// words over an image
fn on_image<'a>(list: &'a [&'a str], file: &'a [u8], err: &'a str, status: Status) -> Row<'a> {
    let mut row = words(list, b"", err, status);
    row.file = file;
    row
}

#[test]
fn machines_saved(rt: HostRuntime) -> Result<(), Fail> {
    let mut row = words(SAVE, b"A", "", Status::Done);
    row.written = Some(IMAGE);
    check(&rt, &row)?;
    let divides = "fault DivideByZero at cycle 1\n";
    let rows = [
        on_image(
            &["save", "f", "9", "o"],
            DIVIDES,
            divides,
            Status::MachineFault,
        ),
        on_image(
            SAVE,
            &DIVIDES[..3],
            "refused 31 Ragged 3\n",
            Status::Refused,
        ),
        on_image(
            &["save", "g", "2", "o"],
            HELLO,
            "read fault\n",
            Status::ReadFault,
        ),
    ];
    for row in &rows {
        check(&rt, row)?;
    }
    Ok(())
}

#[test]
fn images_resumed(rt: HostRuntime) -> Result<(), Fail> {
    let mut bad = IMAGE.to_vec(rt.alloc())?;
    bad[0] = 0;
    let short = "refused 82 BadImage 80\n";
    let none = "refused 82 BadImage 0\n";
    let rows = [
        on_image(&["resume", "f", "1"], IMAGE, "", Status::Done),
        on_image(
            &["resume", "f", "0"],
            IMAGE,
            "budget 0 cycles\n",
            Status::Budget,
        ),
        on_image(&["resume", "f", "1"], &IMAGE[..83], short, Status::Refused),
        on_image(&["resume", "f", "1"], &bad, none, Status::Refused),
        on_image(&["resume", "f", "1"], &[], none, Status::Refused),
        on_image(
            &["resume", "g", "1"],
            IMAGE,
            "read fault\n",
            Status::ReadFault,
        ),
    ];
    for row in &rows {
        check(&rt, row)?;
    }
    Ok(())
}

#[test]
fn faulty_words(rt: HostRuntime) -> Result<(), Fail> {
    let rows = [
        words(&["save", "f"], b"", USAGE, Status::Usage),
        words(&["save", "f", "2"], b"", USAGE, Status::Usage),
        words(&["save", "f", "x", "o"], b"", USAGE, Status::Usage),
        words(&["save", "f", "2", "o", "o"], b"", USAGE, Status::Usage),
        words(&["resume", "f"], b"", USAGE, Status::Usage),
        words(&["resume", "f", "01"], b"", USAGE, Status::Usage),
        words(
            &["resume", "f", "4611686018427387905"],
            b"",
            USAGE,
            Status::Usage,
        ),
    ];
    for row in &rows {
        check(&rt, row)?;
    }
    Ok(())
}

// the image couldn't be written, and the output has all that the run wrote
#[test]
fn images_not_written(rt: HostRuntime) -> Result<(), Fail> {
    let mut row = words(SAVE, b"A", "write fault\n", Status::WriteFault);
    row.fails = Fails::Shelf(1, None);
    check(&rt, &row)?;
    row.fails = Fails::Shelf(1, Some(5));
    row.written = Some(&IMAGE[..5]);
    check(&rt, &row)
}

// does what the words ask for, over a shelf and an output that stay, on this input from its beginning
fn then<R: Abort + AllocGlobal>(
    rt: &R,
    shelf: &mut MemShelf,
    list: &[&str],
    input: MemSource,
    out: &mut MemSink,
    err: &str,
    status: Status,
) -> Result<(), Fail> {
    let alloc = rt.alloc();
    let words = words_of_row(alloc, list)?;
    let mut input = input;
    let mut line = MemSink::new(alloc, 1000, Vec::new(alloc))?;
    let ended = codex(alloc, &words, shelf, &mut input, out, &mut line);
    assert_eq!(rt; line.bytes(), err.as_bytes());
    assert_eq!(rt; ended, status);
    Ok(())
}

fn input_of(alloc: Global, bytes: &[u8], fails: Fails) -> Result<MemSource, Fail> {
    Ok(MemSource::new(bytes.to_vec(alloc)?, fails.of_input(alloc)?))
}

fn shelf_with(alloc: Global, file: &[u8]) -> Result<MemShelf, Fail> {
    let mut shelf = MemShelf::new(alloc, Vec::new(alloc));
    shelf.place("f", file.to_vec(alloc)?)?;
    Ok(shelf)
}

/// A row of two commands: the call of the second's input that fails, what both wrote, and the line and the
/// status of the second.
#[derive(Drop)]
struct SavedRow<'a> {
    file: &'a [u8],
    fails: Fails,
    out: &'a [u8],
    err: &'a str,
    status: Status,
}

// a scroll is saved after so many cycles and gone on with for so many, both on the input `xy`
fn saved_then_resumed<R: Abort + AllocGlobal>(
    rt: &R,
    row: &SavedRow<'_>,
    before: &str,
    after: &str,
) -> Result<(), Fail> {
    let alloc = rt.alloc();
    let mut shelf = shelf_with(alloc, row.file)?;
    let mut out = MemSink::new(alloc, 1000, Vec::new(alloc))?;
    let save = &["save", "f", before, "o"];
    let whole = input_of(alloc, b"xy", Fails::None)?;
    then(rt, &mut shelf, save, whole, &mut out, "", Status::Done)?;
    let resume = &["resume", "o", after];
    let again = input_of(alloc, b"xy", row.fails)?;
    then(rt, &mut shelf, resume, again, &mut out, row.err, row.status)?;
    assert_eq!(rt; out.bytes(), row.out);
    Ok(())
}

fn saved_row<'a>(file: &'a [u8], out: &'a [u8], err: &'a str, status: Status) -> SavedRow<'a> {
    SavedRow {
        file,
        fails: Fails::None,
        out,
        err,
        status,
    }
}

// the line of a division by 0
const DIVIDED: &str = "fault DivideByZero at cycle 1\n";

#[test]
fn saved_and_resumed(rt: HostRuntime) -> Result<(), Fail> {
    let echo = saved_row(ECHO, b"xy", "", Status::Done);
    saved_then_resumed(&rt, &echo, "2", "3")?;
    let spent = "budget 0 cycles\n";
    let echo = saved_row(ECHO, b"x", spent, Status::Budget);
    saved_then_resumed(&rt, &echo, "3", "0")?;
    let hello = saved_row(HELLO, b"", spent, Status::Budget);
    saved_then_resumed(&rt, &hello, "0", "0")?;
    let hello = saved_row(HELLO, b"A", "", Status::Done);
    saved_then_resumed(&rt, &hello, "9", "0")?;
    let divides = saved_row(DIVIDES, b"", DIVIDED, Status::MachineFault);
    saved_then_resumed(&rt, &divides, "0", "9")
}

#[test]
fn resumed_on_an_input_that_fails(rt: HostRuntime) -> Result<(), Fail> {
    let mut row = saved_row(ECHO, b"x", "read fault\n", Status::ReadFault);
    row.fails = Fails::Input(0);
    saved_then_resumed(&rt, &row, "2", "3")?;
    row.fails = Fails::Input(1);
    saved_then_resumed(&rt, &row, "2", "3")
}

// sets r1 to 2; allocates r2, of r1 platters; sets r3 to 7; amends platter 0 of r2 to r3; abandons r2; abandons 0
const ARRAYS: &[u32] = &[
    0xd200_0002,
    0x8000_0011,
    0xd600_0007,
    0x2000_00a3,
    0x9000_0002,
    0x9000_0000,
];

// allocates no platters, again and again
const ALLOCATIONS: &[u32] = &[0x8000_0008, 0xc000_0000];

// the scroll is saved after each number of cycles below this, and gone on with for so many
fn cut_at_each<R: Abort + AllocGlobal>(
    rt: &R,
    row: &SavedRow<'_>,
    below: usize,
    after: &str,
) -> Result<(), Fail> {
    for cycles in 0..below {
        let before = format!(in rt.alloc(); "{cycles}")?;
        saved_then_resumed(rt, row, before.as_str(), after)?;
    }
    Ok(())
}

#[test]
fn scrolls_cut_at_each_cycle(rt: HostRuntime) -> Result<(), Fail> {
    let alloc = rt.alloc();
    let hello = saved_row(HELLO, b"A", "", Status::Done);
    cut_at_each(&rt, &hello, 5, "9")?;
    let echo = saved_row(ECHO, b"xy", "", Status::Done);
    cut_at_each(&rt, &echo, 7, "9")?;
    let file = bytes_of(alloc, ARRAYS)?;
    let line = "fault AbandonZero at cycle 6\n";
    let arrays = saved_row(&file, b"", line, Status::MachineFault);
    cut_at_each(&rt, &arrays, 6, "9")?;
    let file = bytes_of(alloc, ALLOCATIONS)?;
    let allocations = saved_row(&file, b"", "budget 9 cycles\n", Status::Budget);
    cut_at_each(&rt, &allocations, 9, "9")
}

const ROUNDS: usize = 20_000;

// a scroll that writes its first 20,000 bytes of input, one in each round of 50 cycles: 1,000,003 cycles in all
fn rounds(alloc: Global) -> Result<Vec<u8>, Fail> {
    let mut words = Vec::new(alloc);
    for word in [
        0xd200_4e20,
        0x6000_00d2,
        0xb000_0006,
        0xa000_0006,
        0x3000_004b,
    ] {
        words.push(word)?;
    }
    for _ in 0..43 {
        words.push(0x3000_01fb)?;
    }
    for word in [
        0xd800_0034,
        0xda00_0002,
        0x0000_0129,
        0xc000_0014,
        0x7000_0000,
    ] {
        words.push(word)?;
    }
    Ok(bytes_of(alloc, &words)?)
}

fn many_bytes(alloc: Global) -> Result<Vec<u8>, Memory> {
    let mut bytes = Vec::new(alloc);
    for at in 0..ROUNDS {
        bytes.push((at % 251) as u8)?;
    }
    Ok(bytes)
}

// the scroll is saved after so many cycles and gone on with: both write what one run writes
fn cut<R: Abort + AllocGlobal>(
    rt: &R,
    file: &[u8],
    bytes: &[u8],
    cycles: &str,
) -> Result<(), Fail> {
    let alloc = rt.alloc();
    let mut shelf = shelf_with(alloc, file)?;
    let mut out = MemSink::new(alloc, ROUNDS, Vec::new(alloc))?;
    let whole = input_of(alloc, bytes, Fails::None)?;
    let save = &["save", "f", cycles, "o"];
    then(rt, &mut shelf, save, whole, &mut out, "", Status::Done)?;
    let again = input_of(alloc, bytes, Fails::None)?;
    let resume = &["resume", "o", "1000003"];
    then(rt, &mut shelf, resume, again, &mut out, "", Status::Done)?;
    assert!(rt; out.bytes() == bytes);
    Ok(())
}

#[test]
fn million_cycles_cut(rt: HostRuntime) -> Result<(), Fail> {
    let file = rounds(rt.alloc())?;
    let bytes = many_bytes(rt.alloc())?;
    for k in 1..21u64 {
        let cycles = k * 47_619;
        let number = format!(in rt.alloc(); "{cycles}")?;
        cut(&rt, &file, &bytes, number.as_str())?;
    }
    Ok(())
}

// the run of what was compiled is cut after so many cycles
fn compiled_cut<R: Abort + AllocGlobal>(
    rt: &R,
    grid: &[&[&str]],
    cycles: &str,
    text: &str,
) -> Result<(), Fail> {
    let alloc = rt.alloc();
    let grid = bytes_of_lines(alloc, grid)?;
    let mut shelf = shelf_with(alloc, &grid)?;
    command(rt, &mut shelf, &["compile", "f", "o"], "", "", Status::Done)?;
    let mut out = MemSink::new(alloc, 1000, Vec::new(alloc))?;
    let save = &["save", "o", cycles, "i"];
    let none = input_of(alloc, b"", Fails::None)?;
    then(rt, &mut shelf, save, none, &mut out, "", Status::Done)?;
    let resume = &["resume", "i", "4611686018427387904"];
    let none = input_of(alloc, b"", Fails::None)?;
    then(rt, &mut shelf, resume, none, &mut out, "", Status::Done)?;
    assert_eq!(rt; out.bytes(), text.as_bytes());
    Ok(())
}

#[test]
fn compiled_runs_cut(rt: HostRuntime) -> Result<(), Fail> {
    let stuck = "stuck: bad box 2: no sum\n  in main box 1\n";
    for cycles in ["0", "1", "77", "1000", "3333", "10000", "1000000"] {
        compiled_cut(&rt, &[ADDITION], cycles, SUM)?;
        compiled_cut(&rt, &[STUCK_INSIDE], cycles, stuck)?;
    }
    Ok(())
}
