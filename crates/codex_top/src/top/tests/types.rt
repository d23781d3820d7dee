//! Worked rows of `type`.

use super::grids::{ADDITION, BAD_TURN, SMALLEST, STUCK_INSIDE, bytes_of_lines};
use super::{USAGE, command};
use crate::Status;
use std::process::Abort;
use std::test::Fail;
use umix_base::MemShelf;

/// A grid and the lines of a sheet, and what `type` of both writes.
#[derive(Drop)]
struct TypeRow<'a> {
    grid: &'a [&'a str],
    sheet: &'a [&'a str],
    out: &'a str,
    err: &'a str,
    status: Status,
}

fn check_types<R: Abort + AllocGlobal>(rt: &R, row: &TypeRow<'_>) -> Result<(), Fail> {
    let alloc = rt.alloc();
    let mut shelf = MemShelf::new(alloc, Vec::new(alloc));
    shelf.place("f", bytes_of_lines(alloc, &[row.grid])?)?;
    shelf.place("s", bytes_of_lines(alloc, &[row.sheet])?)?;
    command(
        rt,
        &mut shelf,
        &["type", "f", "s"],
        row.out,
        row.err,
        row.status,
    )
}

fn typed<'a>(grid: &'a [&'a str], sheet: &'a [&'a str], out: &'a str) -> TypeRow<'a> {
    TypeRow {
        grid,
        sheet,
        out,
        err: "",
        status: Status::Done,
    }
}

fn unfit<'a>(grid: &'a [&'a str], sheet: &'a [&'a str], err: &'a str) -> TypeRow<'a> {
    TypeRow {
        grid,
        sheet,
        out: "",
        err,
        status: Status::Refused,
    }
}

const NUMBERS: &[&str] = &[
    "type u = ()",
    "type nat = [u|nat]",
    "module main e nat",
    "wire main 1 S nat",
    "wire main 1 E nat",
    "module plus n nat w nat e nat",
    "wire plus 2 S nat",
    "wire plus 2 E nat",
    "wire plus 3 E nat",
    "wire plus 5 E nat",
];

// a `case` with both outputs on a side without a wire
const JOINED: &[&str] = &[
    ",....................................................,",
    ":main                                                :",
    ": *================*  *=============*  *============*:",
    ": !send[(Inl (),E)]!->!case W of S,S!->!send[((),E)]!-",
    ": *================*  *=============*  *============*:",
    "'....................................................'",
];

// the second box feeds the first
const BACKWARDS: &[&str] = &[
    ",...................,",
    ":main               :",
    ":      *========*   :",
    ":  +-->!split W !   :",
    ":  |   *========*   :",
    ":  |                :",
    ":  +--------------+ :",
    ": *============*  | :",
    ": !send[((),E)]!--+ :",
    ": *============*    :",
    "'...................'",
];

#[test]
fn programs_that_fit(rt: HostRuntime) -> Result<(), Fail> {
    let joined = &[
        "type u = ()",
        "type p = (u,u)",
        "type s = [u|p]",
        "module main e u",
        "wire main 1 E s",
        "wire main 2 E u",
        "wire main 3 E u",
    ];
    let one = &["type u = ()", "", "module main e u", "wire main 1 E u"];
    let rows = [
        typed(ADDITION, NUMBERS, "typed 2 modules, 2 types\n"),
        typed(JOINED, joined, "typed 1 modules, 3 types\n"),
        typed(SMALLEST, one, "typed 1 modules, 1 types\n"),
    ];
    for row in &rows {
        check_types(&rt, row)?;
    }
    Ok(())
}

// each fault of a text goes before those behind it in the table, wherever they stand
#[test]
fn texts_that_are_no_sheet(rt: HostRuntime) -> Result<(), Fail> {
    let rows = [
        (
            &["type u = ()", "type v = (u, u)"] as &[&str],
            "refused 72 BadSheet 2\n",
        ),
        (
            &["type u = ()", "type u = ()", "", "u"],
            "refused 72 BadSheet 4\n",
        ),
        (
            &["type u = (x,x)", "module main e u", "module main e u"],
            "refused 73 SameLine 3\n",
        ),
        (
            &["type u = ()", "wire main 1 E u", "", "wire main 1 E v"],
            "refused 73 SameLine 4\n",
        ),
        (
            &["type u = ()", "wire main 2 E u", "module main e v"],
            "refused 74 NoType 3\n",
        ),
    ];
    for (sheet, err) in rows {
        check_types(&rt, &unfit(SMALLEST, sheet, err))?;
    }
    Ok(())
}

// a sheet of so many bytes of this value
fn check_long<R: Abort + AllocGlobal>(
    rt: &R,
    byte: u8,
    length: usize,
    err: &str,
) -> Result<(), Fail> {
    let alloc = rt.alloc();
    let mut shelf = MemShelf::new(alloc, Vec::new(alloc));
    shelf.place("f", bytes_of_lines(alloc, &[SMALLEST])?)?;
    shelf.place("s", vec![in alloc; byte; length]?)?;
    command(
        rt,
        &mut shelf,
        &["type", "f", "s"],
        "",
        err,
        Status::Refused,
    )
}

#[test]
fn long_sheets(rt: HostRuntime) -> Result<(), Fail> {
    check_long(&rt, b'\n', 262_144, "refused 76 NoLine main\n")?;
    check_long(&rt, b'\n', 262_145, "refused 71 SheetTooLong\n")?;
    check_long(&rt, b'x', 262_145, "refused 71 SheetTooLong\n")
}

// a line without a place goes before one that is missing
#[test]
fn lines_of_other_programs(rt: HostRuntime) -> Result<(), Fail> {
    let rows = [
        (
            &["type u = ()", "wire main 2 E u"] as &[&str],
            "refused 75 NoPlace 2\n",
        ),
        (
            &["type u = ()", "module main n u e u", "wire main 1 E u"],
            "refused 75 NoPlace 2\n",
        ),
        (
            &["type u = ()", "", "of main 1 u", "wire main 1 S u"],
            "refused 75 NoPlace 3\n",
        ),
        (
            &["type u = ()", "module main e u"],
            "refused 76 NoLine main 1\n",
        ),
        (&[], "refused 76 NoLine main\n"),
    ];
    for (sheet, err) in rows {
        check_types(&rt, &unfit(SMALLEST, sheet, err))?;
    }
    Ok(())
}

#[test]
fn programs_that_do_not_fit(rt: HostRuntime) -> Result<(), Fail> {
    let stuck = &[
        "type u = ()",
        "module main e u",
        "module bad e u",
        "wire bad 1 E u",
    ];
    // The exit of `main` doesn't fit either.
    let missing = &[
        "type u = ()",
        "type p = (u,u)",
        "module main e p",
        "module bad e u",
    ];
    let exit = &[
        "type a = ()",
        "type b = ()",
        "module main e b",
        "wire main 1 E a",
    ];
    let order = &[
        "type u = ()",
        "type s = [u|u]",
        "module main e u",
        "wire main 2 E s",
    ];
    let rows = [
        unfit(STUCK_INSIDE, stuck, "refused 77 Mismatch bad 2\n"),
        unfit(STUCK_INSIDE, missing, "refused 76 NoLine bad 1\n"),
        unfit(SMALLEST, exit, "refused 77 Mismatch main exit 1\n"),
        unfit(BACKWARDS, order, "refused 77 Mismatch main 2\n"),
    ];
    for row in &rows {
        check_types(&rt, row)?;
    }
    Ok(())
}

// the grid's file is read and checked before the sheet's
#[test]
fn files_of_types(rt: HostRuntime) -> Result<(), Fail> {
    let alloc = rt.alloc();
    let mut shelf = MemShelf::new(alloc, Vec::new(alloc));
    shelf.place("f", bytes_of_lines(alloc, &[SMALLEST])?)?;
    shelf.place("b", bytes_of_lines(alloc, &[BAD_TURN])?)?;
    let bad = "refused 13 BadTurn at 3:4\n";
    let rows = [
        (&["type", "b", "none"] as &[&str], bad, Status::Refused),
        (&["type", "f", "none"], "read fault\n", Status::ReadFault),
        (&["type", "none", "f"], "read fault\n", Status::ReadFault),
        (&["type", "f"], USAGE, Status::Usage),
        (&["type", "f", "b", "b"], USAGE, Status::Usage),
    ];
    for (words, err, status) in rows {
        command(&rt, &mut shelf, words, "", err, status)?;
    }
    Ok(())
}
