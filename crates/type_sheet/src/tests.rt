//! Sheets against programs, and the bounds of a sheet.

mod short;

use crate::{At, SheetFault, fits, read_sheet};
use short::program_of;
use std::alloc::Global;
use std::test::Fail;

/// What a sheet and a program give: the number of rows of a sheet that fits, or the fault's number
/// and place.
fn answer_of(alloc: Global, first: &str, second: &str, sheet: &[u8]) -> Result<String, Fail> {
    let program = program_of(alloc, first, second)?;
    let sheet = match read_sheet(alloc, sheet) {
        Ok(sheet) => sheet,
        Err(fault) => return fault_text(alloc, &fault),
    };
    match fits(alloc, &program, &sheet) {
        Ok(()) => Ok(format!(in alloc; "typed {}", sheet.rows().len())?),
        Err(fault) => fault_text(alloc, &fault),
    }
}

fn fault_text(alloc: Global, fault: &SheetFault) -> Result<String, Fail> {
    let text = match fault {
        SheetFault::TooLong => format!(in alloc; "71")?,
        SheetFault::BadSheet(line) => format!(in alloc; "72 {line}")?,
        SheetFault::SameLine(line) => format!(in alloc; "73 {line}")?,
        SheetFault::NoType(line) => format!(in alloc; "74 {line}")?,
        SheetFault::NoPlace(line) => format!(in alloc; "75 {line}")?,
        SheetFault::NoLine(at) => format!(in alloc; "76 {}", place_text(alloc, at)?)?,
        SheetFault::Mismatch(at) => format!(in alloc; "77 {}", place_text(alloc, at)?)?,
        SheetFault::Memory => format!(in alloc; "no memory")?,
    };
    Ok(text)
}

fn place_text(alloc: Global, at: &At) -> Result<String, Fail> {
    let text = match at {
        At::Module(number) => format!(in alloc; "{number}")?,
        At::Bx(number, bx) => format!(in alloc; "{number} {bx}")?,
        At::Exit(number, exit) => format!(in alloc; "{number} exit {exit}")?,
    };
    Ok(text)
}

/// `main`, whose one box sends `()` to its exit.
const UNIT: &str = "main - -\n\
    - - send u E\n\
    exit E0";

/// A use of `bad`.
const USE: &str = "main - -\n\
    - - use bad";

/// A `case` of what is no sum.
const BAD: &str = "bad - -\n\
    - - send u E\n\
    - E0 case w E S";

/// Box 1 splits what box 2 sends, so box 2 stands first in the kept order.
const ORDER: &str = "main - -\n\
    - E1 split w\n\
    - - send u E";

/// A `case` with both outputs on one side, to an exit.
const JOIN: &str = "main - -\n\
    - - send ul E\n\
    - E0 case w S S\n\
    - - send u E\n\
    exit E2\n\
    exit S1";

/// The same, with a wire from the other side.
const STRIP: &str = "main - -\n\
    - - send ul E\n\
    - E0 case w S S\n\
    - E1 send u E\n\
    exit E2";

/// A `split` of a pair, and a `case` of its second part.
const SPLIT: &str = "main - -\n\
    - - split uulp\n\
    S0 - send n E\n\
    - E0 case w E S\n\
    exit E1\n\
    exit E2";

/// A use of `sub`, which is given a unit and a sum.
const CALL: &str = "main - -\n\
    - - send u S ul E\n\
    S0 E0 use sub\n\
    exit E1";

/// A `case` of a sum to one side, and a pair of what comes in.
const PASS: &str = "sub n w\n\
    - w case w S S\n\
    n S0 send nwp E\n\
    exit E1";

/// The sum of two numbers, by a use of `plus`.
const SUM: &str = "main - -\n\
    - - send ulrr E ulrrr S\n\
    S0 E0 use plus\n\
    exit E1";

/// The sum of what comes in.
const PLUS: &str = "plus n w\n\
    n - case n S E\n\
    - w send w S w E\n\
    S0 E1 send w E\n\
    E0 S1 use plus\n\
    - E3 send wr E\n\
    exit E2\n\
    exit E4";

/// A sheet that `SUM` and `PLUS` fit.
const NUMBERS: &str = "type u = ()\n\
    type nat = [u|nat]\n\
    module main e nat\n\
    wire main 1 S nat\n\
    wire main 1 E nat\n\
    module plus n nat w nat e nat\n\
    wire plus 2 S nat\n\
    wire plus 2 E nat\n\
    wire plus 3 E nat\n\
    wire plus 5 E nat";

/// Programs of one or two modules, each with a sheet and what is answered.
const ROWS: [(&str, &str, &str, &str); 42] = [
    (
        UNIT,
        "",
        "type u = ()\n\
         module main e u\n\
         wire main 1 E u",
        "typed 3",
    ),
    (
        UNIT,
        "",
        "\n\
         type main = ()\r\n\
         module main e main\n\
         \n\
         wire main 1 E main\n\
         ",
        "typed 3",
    ),
    (UNIT, "", "", "76 0"),
    (
        UNIT,
        "",
        "type u = ()\n\
         module main e u",
        "76 0 0",
    ),
    (
        UNIT,
        "",
        "type u = ()\n\
         type v = (u, u)",
        "72 2",
    ),
    (
        UNIT,
        "",
        "type u = ()\n\
         module main e u\n\
         wire main 1 E u\r",
        "72 3",
    ),
    (
        UNIT,
        "",
        "type u = ()\n\
         \n\
         wire main 0 E u",
        "72 3",
    ),
    (
        UNIT,
        "",
        "type u = ()\n\
         of main 01 u",
        "72 2",
    ),
    (
        UNIT,
        "",
        "type u = ()\n\
         wire main 4294967296 E u",
        "72 2",
    ),
    (
        UNIT,
        "",
        "type u = ()\n\
         wire main 4294967295 E u",
        "75 2",
    ),
    (
        UNIT,
        "",
        "type u = ()\n\
         module main e v\n\
         module main e u\n\
         type x = u",
        "72 4",
    ),
    (
        UNIT,
        "",
        "type u = (x,x)\n\
         module main e u\n\
         module main e u",
        "73 3",
    ),
    (
        UNIT,
        "",
        "type u = ()\n\
         module main e u\n\
         wire main 1 E u\n\
         \n\
         wire main 1 E u",
        "73 5",
    ),
    (
        UNIT,
        "",
        "type u = ()\n\
         module main e u\n\
         wire main 1 E u\n\
         of main 1 u\n\
         of main 1 v",
        "73 5",
    ),
    (
        UNIT,
        "",
        "type u = ()\n\
         module main e v\n\
         wire main 1 E u",
        "74 2",
    ),
    (
        UNIT,
        "",
        "type u = ()\n\
         type v = [u|w]\n\
         module main e u\n\
         wire main 1 E v",
        "74 2",
    ),
    (
        UNIT,
        "",
        "type u = ()\n\
         wire main 2 E u",
        "75 2",
    ),
    (
        UNIT,
        "",
        "type u = ()\n\
         module main n u e u\n\
         wire main 1 E u",
        "75 2",
    ),
    (
        UNIT,
        "",
        "type u = ()\n\
         module main e u\n\
         wire main 1 E u\n\
         wire main 1 S u",
        "75 4",
    ),
    (
        UNIT,
        "",
        "type u = ()\n\
         module main e u\n\
         wire main 1 E u\n\
         of main 1 u",
        "75 4",
    ),
    (
        UNIT,
        "",
        "type u = ()\n\
         module main e u\n\
         module other e u",
        "75 3",
    ),
    (
        UNIT,
        "",
        "type u = ()\n\
         type v = (u,u)\n\
         module main e v\n\
         wire main 1 E v",
        "77 0 0",
    ),
    (
        UNIT,
        "",
        "type a = ()\n\
         type b = ()\n\
         module main e b\n\
         wire main 1 E a",
        "77 0 exit 0",
    ),
    (
        USE,
        BAD,
        "type u = ()\n\
         module main e u\n\
         module bad e u\n\
         wire bad 1 E u",
        "77 1 1",
    ),
    (
        USE,
        BAD,
        "type u = ()\n\
         type s = [u|u]\n\
         module main e u\n\
         module bad e u\n\
         wire bad 1 E s",
        "77 1 0",
    ),
    (
        USE,
        BAD,
        "type u = ()\n\
         type s = [u|u]\n\
         module bad e u\n\
         wire bad 1 E s",
        "76 0",
    ),
    (SUM, PLUS, NUMBERS, "typed 10"),
    (
        SUM,
        PLUS,
        "type u = ()\n\
         type nat = [u|nat]\n\
         module main e nat\n\
         wire main 1 S nat\n\
         wire main 1 E nat\n\
         module plus n nat w nat e nat\n\
         wire plus 2 S nat\n\
         wire plus 2 E nat\n\
         wire plus 3 E nat",
        "76 1 4",
    ),
    (
        SUM,
        PLUS,
        "type u = ()\n\
         type nat = [u|nat]\n\
         module main e nat\n\
         wire main 1 S nat\n\
         wire main 1 E nat\n\
         module plus n nat w u e nat\n\
         wire plus 2 S nat\n\
         wire plus 2 E nat\n\
         wire plus 3 E nat\n\
         wire plus 5 E nat",
        "77 0 1",
    ),
    (
        SUM,
        PLUS,
        "type u = ()\n\
         type nat = [u|nat]\n\
         module main e nat\n\
         wire main 1 S nat\n\
         wire main 1 E nat\n\
         module plus n nat w nat e nat\n\
         wire plus 1 S u\n\
         wire plus 2 S nat\n\
         wire plus 2 E nat\n\
         wire plus 3 E nat\n\
         wire plus 5 E nat",
        "75 7",
    ),
    (
        ORDER,
        "",
        "type u = ()\n\
         type s = [u|u]\n\
         module main e u\n\
         wire main 2 E s",
        "77 0 1",
    ),
    (
        ORDER,
        "",
        "type u = ()\n\
         type p = (u,u)\n\
         module main e u\n\
         wire main 2 E u",
        "77 0 0",
    ),
    (
        JOIN,
        "",
        "type u = ()\n\
         type p = (u,u)\n\
         type s = [u|p]\n\
         module main e u\n\
         wire main 1 E s\n\
         wire main 3 E u",
        "77 0 1",
    ),
    (
        JOIN,
        "",
        "type u = ()\n\
         type s = [u|u]\n\
         module main e u\n\
         wire main 1 E s\n\
         wire main 3 E u",
        "typed 5",
    ),
    (
        JOIN,
        "",
        "type u = ()\n\
         type v = ()\n\
         type s = [u|v]\n\
         module main e u\n\
         wire main 1 E s\n\
         wire main 3 E u",
        "77 0 1",
    ),
    (
        SPLIT,
        "",
        "type u = ()\n\
         type b = [u|u]\n\
         type p = (u,b)\n\
         module main e u\n\
         of main 1 p\n\
         wire main 2 E u",
        "typed 6",
    ),
    (
        SPLIT,
        "",
        "type u = ()\n\
         type b = [u|u]\n\
         type p = (u,b)\n\
         module main e u\n\
         wire main 2 E u",
        "76 0 0",
    ),
    (
        SPLIT,
        "",
        "type u = ()\n\
         type b = [u|u]\n\
         type p = (u,u)\n\
         module main e u\n\
         of main 1 p\n\
         wire main 2 E u",
        "77 0 0",
    ),
    (
        SPLIT,
        "",
        "type u = ()\n\
         type b = [u|u]\n\
         type p = (u,b)\n\
         module main e b\n\
         of main 1 p\n\
         wire main 2 E b",
        "77 0 1",
    ),
    (
        CALL,
        PASS,
        "type u = ()\n\
         type s = [u|u]\n\
         type p = (u,u)\n\
         module main e p\n\
         module sub n u w s e p\n\
         wire main 1 S u\n\
         wire main 1 E s\n\
         wire sub 2 E p",
        "typed 8",
    ),
    (
        CALL,
        PASS,
        "type u = ()\n\
         type s = [u|u]\n\
         type t = [u|u]\n\
         type p = (u,u)\n\
         module main e p\n\
         module sub n u w t e p\n\
         wire main 1 S u\n\
         wire main 1 E s\n\
         wire sub 2 E p",
        "77 0 1",
    ),
    (
        STRIP,
        "",
        "type u = ()\n\
         type p = (u,u)\n\
         type s = [u|p]\n\
         module main e u\n\
         wire main 1 E s\n\
         wire main 2 E u\n\
         wire main 3 E u",
        "typed 7",
    ),
];

#[test]
fn each_program_fits_its_sheet_or_the_first_reason_is_told(rt: HostRuntime) -> Result<(), Fail> {
    for (first, second, sheet, wanted) in &ROWS {
        let answer = answer_of(rt.alloc(), first, second, sheet.as_bytes())?;
        assert!(rt; answer.as_str() == *wanted, "{first}: {sheet}: {answer}");
    }
    Ok(())
}

#[test]
fn a_sheet_that_is_too_long_is_told_first(rt: HostRuntime) -> Result<(), Fail> {
    let alloc = rt.alloc();
    let mut text = Vec::from_elem(alloc, b'\n', 262_144)?;
    assert_eq!(rt; answer_of(alloc, UNIT, "", &text)?.as_str(), "76 0");
    text[262_143] = b'x';
    assert_eq!(rt; answer_of(alloc, UNIT, "", &text)?.as_str(), "72 262144");
    text.push(b'\n')?;
    assert_eq!(rt; answer_of(alloc, UNIT, "", &text)?.as_str(), "71");
    Ok(())
}
