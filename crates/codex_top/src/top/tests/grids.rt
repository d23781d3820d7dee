//! Worked rows of the commands on grids.

use super::{Fails, Row, check, command};
use crate::Status;
use std::alloc::Global;
use std::process::Abort;
use std::test::Fail;
use umix_base::MemShelf;

// one module, which sends the unit
pub(super) const SMALLEST: &[&str] = &[
    ",...............,",
    ":main           :",
    ": *============*:",
    ": !send[((),E)]!-",
    ": *============*:",
    "'...............'",
];

// a module that uses one that is stuck
pub(super) const STUCK_INSIDE: &[&str] = &[
    ",..........,",
    ":main      :",
    ": *=======*:",
    ": !use bad!-",
    ": *=======*:",
    "'..........'",
    ",................................,",
    ":bad                             :",
    ": *============*  *=============*:",
    ": !send[((),E)]!->!case W of E,S!-",
    ": *============*  *=============*:",
    "'................................'",
];

// a module that uses `id`
pub(super) const USES_ID: &[&str] = &[
    ",.........................,",
    ":main                     :",
    ": *============*  *======*:",
    ": !send[((),E)]!->!use id!-",
    ": *============*  *======*:",
    "'.........................'",
];

// a module whose west entry runs straight to an exit
pub(super) const ID: &[&str] = &[",....,", ":id  :", "------", "'....'"];

// the same with a crossing in its wire
pub(super) const ID_CROSSED: &[&str] = &[",....,", ":id  :", "--#---", "'....'"];

// two wires cross
const CROSSING: &[&str] = &[
    ",...|......,",
    ":x  |      :",
    "----#-------",
    ":   v      :",
    ": *======* :",
    ": !send[]! :",
    ": *======* :",
    "'..........'",
];

// the same, but one wire has another in its way
const BROKEN: &[&str] = &[
    ",...|......,",
    ":x  |      :",
    "------------",
    ":   v      :",
    ": *======* :",
    ": !send[]! :",
    ": *======* :",
    "'..........'",
];

// a wire meets another at a right angle
pub(super) const BAD_TURN: &[&str] = &[",.....,", ":m |  :", "---+  :", ":  |  :", "'.....'"];

// two wires come to one corner
const MERGE: &[&str] = &[
    ",..|..,", ":m |  :", ":  +---", ":  |  :", "---+  :", "'.....'",
];

// the box that is stuck first by time is not the first by number
pub(super) const STUCK_TWICE: &[&str] = &[
    ",...............................................,",
    ":main                                           :",
    ": *============*  *===========*  *=============*:",
    ": !send[((),E)]!->!send[(W,E)]!->!case W of E,S!-",
    ": *============*  *===========*  *=============*:",
    ": *============*  *=======*                     :",
    ": !send[((),E)]!->!split W!                     :",
    ": *============*  *=======*                     :",
    "'...............................................'",
];

// the box that is stuck first by number is the last that is kept
pub(super) const STUCK_LATE: &[&str] = &[
    ",..............................................,",
    ":main                                          :",
    ":                                 *=======*    :",
    ":                              +->!split W!    :",
    ": *============*  *=======*    |  *=======*    :",
    ": !send[((),E)]!->!split W!    |               :",
    ": *============*  *=======*    |               :",
    ": *============*               |               :",
    ": !send[((),E)]!---------------+               :",
    ": *============*                               :",
    "'..............................................'",
];

// two exits carry a value
pub(super) const TWO_RESULTS: &[&str] = &[
    ",...............,",
    ":main           :",
    ": *============*:",
    ": !send[((),E)]!-",
    ": *============*:",
    ": *============*:",
    ": !send[((),E)]!-",
    ": *============*:",
    "'...............'",
];

// no exit carries a value
pub(super) const NO_RESULT: &[&str] = &[
    ",.........,",
    ":main     :",
    ": *======*:",
    ": !send[]!:",
    ": *======*:",
    "'.........'",
];

// a `use` without the input that its module has
const USES_ID_ALONE: &[&str] = &[
    ",.........,",
    ":main     :",
    ": *======*:",
    ": !use id!:",
    ": *======*:",
    "'.........'",
];

// a stuck box beside a module that uses itself for ever
pub(super) const ENDLESS: &[&str] = &[
    ",..........................,",
    ":main                      :",
    ": *============*  *=======*:",
    ": !send[((),E)]!->!split W!-",
    ": *============*  *=======*:",
    ": *========*               :",
    ": !use loop!               :",
    ": *========*               :",
    "'..........................'",
    ",...........,",
    ":loop       :",
    ": *========*:",
    ": !use loop!-",
    ": *========*:",
    "'...........'",
];

// the sum of two and three
pub(super) const ADDITION: &[&str] = &[
    ",......................................,",
    ":main                                  :",
    ": *========================*           :",
    ": !send[(Inr Inr Inl (),E),!-----+     :",
    ": !(Inr Inr Inr Inl (),S)] !     |     :",
    ": *========================*     v     :",
    ":        |                   *========*:",
    ":        +------------------>!use plus!-",
    ":                            *========*:",
    "'......................................'",
    ",..........................|...................................,",
    ":plus                      v                                   :",
    ":                    *=============*                           :",
    ":                    !case N of S,E!--+                        :",
    ":                    *=============*  |                        :",
    ":                          |          |                        :",
    ":                          v          |                        :",
    ": *=================*  *===========*  |                        :",
    "->!send[(W,S),(W,E)]!->!send[(W,E)]!--#-------------------------",
    ": *=================*  *===========*  v                        :",
    ":          |                      *========*  *===============*:",
    ":          +--------------------->!use plus!->!send[(Inr W,E)]!-",
    ":                                 *========*  *===============*:",
    "'..............................................................'",
];

// two boxes in a ring
const RING: &[&str] = &[
    ",..............................,",
    ":main                          :",
    ":+----+                        :",
    ":|    v                        :",
    ":| *===========*  *===========*:",
    ":| !send[(N,E)]!->!send[(W,S)]!:",
    ":| *===========*  *===========*:",
    ":|                      |      :",
    ":+----------------------+      :",
    "'..............................'",
];

// an input that is not wired
const UNWIRED: &[&str] = &[
    ",...............,",
    ":main           :",
    ": *============*:",
    ": !send[(N,E)] !-",
    ": *============*:",
    "'...............'",
];

// a text that is no command
const NO_COMMAND: &[&str] = &[
    ",...............,",
    ":main           :",
    ": *============*:",
    ": !sendx[(),E)]!-",
    ": *============*:",
    "'...............'",
];

// a stuck module two uses deep
pub(super) const TWO_CALLERS: &[&str] = &[
    ",........,",
    ":main    :",
    ": *=====*:",
    ": !use a!-",
    ": *=====*:",
    "'........'",
    ",........,",
    ":a       :",
    ": *=====*:",
    ": !use b!-",
    ": *=====*:",
    "'........'",
    ",.........,",
    ":b        :",
    ": *======*:",
    ": !send[]!-",
    ": *======*:",
    "'.........'",
];

// a module that uses itself until it is stuck
pub(super) const DEEP_CALLERS: &[&str] = &[
    ",.......................................,",
    ":main                                   :",
    ": *========================*  *========*:",
    ": !send[(Inr Inr Inl (),E)]!->!use down!-",
    ": *========================*  *========*:",
    "'.......................................'",
    ",............................,",
    ":down                        :",
    ": *=============*  *========*:",
    "->!case W of S,E!->!use down!-",
    ": *=============*  *========*:",
    "'............................'",
];

pub(super) const SUM: &str = "Inr Inr Inr Inr Inr Inl ()\n";

const TWO_CALLERS_TEXT: &str = "stuck: b: no result\n  in a box 1\n  in main box 1\n";

const DEEP_CALLERS_TEXT: &str =
    "stuck: down: no result\n  in down box 2\n  in down box 2\n  in main box 2\n";

// the bytes of lines, each of which LF ends
pub(super) fn bytes_of_lines(alloc: Global, parts: &[&[&str]]) -> Result<Vec<u8>, Fail> {
    let mut bytes = Vec::new(alloc);
    for part in parts {
        for line in *part {
            bytes.extend_from_slice(line.as_bytes())?;
            bytes.push(b'\n')?;
        }
    }
    Ok(bytes)
}

// a box that is stuck at once beside one that goes on for ever
const STUCK_AND_ENDLESS: &[&str] = &[
    ",............,",
    ":main        :",
    ": *========* :",
    ": !split ()! :",
    ": *========* :",
    ": *========* :",
    ": !use loop!--",
    ": *========* :",
    "'............'",
    ",............,",
    ":loop        :",
    ": *========* :",
    ": !use loop!--",
    ": *========* :",
    "'............'",
];

/// A command on a grid, which stands in the file `f`, and what it writes.
#[derive(Drop)]
struct GridRow<'a> {
    words: &'a [&'a str],
    grid: &'a [&'a [&'a str]],
    out: &'a str,
    err: &'a str,
    status: Status,
}

fn check_grid<R: Abort + AllocGlobal>(rt: &R, row: &GridRow<'_>) -> Result<(), Fail> {
    let alloc = rt.alloc();
    let mut shelf = MemShelf::new(alloc, Vec::new(alloc));
    shelf.place("f", bytes_of_lines(alloc, row.grid)?)?;
    command(rt, &mut shelf, row.words, row.out, row.err, row.status)
}

const CHECK: &[&str] = &["check", "f"];

fn accepted<'a>(grid: &'a [&'a [&'a str]], out: &'a str) -> GridRow<'a> {
    GridRow {
        words: CHECK,
        grid,
        out,
        err: "",
        status: Status::Done,
    }
}

fn refused<'a>(grid: &'a [&'a [&'a str]], err: &'a str) -> GridRow<'a> {
    GridRow {
        words: CHECK,
        grid,
        out: "",
        err,
        status: Status::Refused,
    }
}

#[test]
fn checks(rt: HostRuntime) -> Result<(), Fail> {
    let rows = [
        accepted(&[SMALLEST], "ok 1 1\n"),
        accepted(&[CROSSING, SMALLEST], "ok 2 2\n"),
        refused(&[BROKEN, SMALLEST], "refused 12 BrokenWire at 3:5\n"),
        accepted(&[USES_ID, ID_CROSSED], "ok 2 2\n"),
        refused(&[BAD_TURN], "refused 13 BadTurn at 3:4\n"),
        refused(&[MERGE], "refused 14 Merge at 3:4\n"),
        refused(&[RING], "refused 22 Cycle at 5:4\n"),
        refused(&[SMALLEST, SMALLEST], "refused 16 SameName at 7:1\n"),
        refused(&[ID], "refused 17 NoMain\n"),
        refused(&[USES_ID_ALONE, ID], "refused 20 BadInputs at 3:3\n"),
        refused(&[UNWIRED], "refused 21 Unwired at 3:3\n"),
        refused(&[NO_COMMAND], "refused 10 BadCommand at 4:8\n"),
    ];
    for row in &rows {
        check_grid(&rt, row)?;
    }
    Ok(())
}

fn told<'a>(
    words: &'a [&'a str],
    grid: &'a [&'a [&'a str]],
    out: &'a str,
    status: Status,
) -> GridRow<'a> {
    GridRow {
        words,
        grid,
        out,
        err: "",
        status,
    }
}

fn spent<'a>(
    words: &'a [&'a str],
    grid: &'a [&'a [&'a str]],
    out: &'a str,
    err: &'a str,
) -> GridRow<'a> {
    GridRow {
        words,
        grid,
        out,
        err,
        status: Status::Budget,
    }
}

const EVAL: &[&str] = &["eval", "f"];

#[test]
fn evaluations(rt: HostRuntime) -> Result<(), Fail> {
    let inside = "stuck: bad box 2: no sum\n  in main box 1\n";
    let rows = [
        told(EVAL, &[SMALLEST], "()\n", Status::Done),
        told(EVAL, &[STUCK_INSIDE], inside, Status::Stuck),
        told(EVAL, &[USES_ID, ID], "()\n", Status::Done),
        told(
            &["eval", "f", "last"],
            &[STUCK_TWICE],
            "stuck: main box 3: no sum\n",
            Status::Stuck,
        ),
        told(
            EVAL,
            &[STUCK_LATE],
            "stuck: main box 1: no pair\n",
            Status::Stuck,
        ),
        told(
            EVAL,
            &[TWO_RESULTS],
            "stuck: main: two results\n",
            Status::Stuck,
        ),
        told(
            EVAL,
            &[NO_RESULT],
            "stuck: main: no result\n",
            Status::Stuck,
        ),
        spent(
            &["eval", "f", "first", "1000"],
            &[ENDLESS],
            "",
            "budget 1000 events\n",
        ),
        told(&["eval", "f", "first"], &[ADDITION], SUM, Status::Done),
        told(&["eval", "f", "last"], &[ADDITION], SUM, Status::Done),
        told(&["eval", "f", "7,0,3"], &[ADDITION], SUM, Status::Done),
        told(
            &["eval", "f", "first", "17"],
            &[ADDITION],
            SUM,
            Status::Done,
        ),
        spent(
            &["eval", "f", "first", "16"],
            &[ADDITION],
            "",
            "budget 16 events\n",
        ),
        told(EVAL, &[TWO_CALLERS], TWO_CALLERS_TEXT, Status::Stuck),
        told(
            &["eval", "f", "first", "11"],
            &[DEEP_CALLERS],
            DEEP_CALLERS_TEXT,
            Status::Stuck,
        ),
    ];
    for row in &rows {
        check_grid(&rt, row)?;
    }
    Ok(())
}

pub(super) const FIVE_EVENTS: &str =
    "fire 0 main 1\nfire 0 main 2\nfire 1 plus 1\nfire 1 plus 2\nfire 1 plus 4\n";

#[test]
fn traces(rt: HostRuntime) -> Result<(), Fail> {
    let rows = [
        spent(
            &["trace", "f", "first", "5"],
            &[ADDITION],
            FIVE_EVENTS,
            "budget 5 events\n",
        ),
        spent(
            &["trace", "f", "7", "0"],
            &[ADDITION],
            "",
            "budget 0 events\n",
        ),
        told(
            &["trace", "f", "last", "9"],
            &[STUCK_INSIDE],
            "fire 0 main 1\nfire 1 bad 1\nfire 1 bad 2\nend 1\nend 0\nstuck: bad box 2: no sum\n  in main box 1\n",
            Status::Stuck,
        ),
    ];
    for row in &rows {
        check_grid(&rt, row)?;
    }
    Ok(())
}

// events of an endless program, whichever comes next
#[test]
fn many_events(rt: HostRuntime) -> Result<(), Fail> {
    check_grid(
        &rt,
        &spent(
            &["eval", "f", "last", "1000000"],
            &[ENDLESS],
            "",
            "budget 1000000 events\n",
        ),
    )
}

/// A program that is compiled, and what a run of its scroll comes to.
#[derive(Drop)]
struct ScrollRow<'a> {
    grid: &'a [&'a [&'a str]],
    run: &'a [&'a str],
    out: &'a str,
    err: &'a str,
    status: Status,
}

fn check_scroll<R: Abort + AllocGlobal>(rt: &R, row: &ScrollRow<'_>) -> Result<(), Fail> {
    let alloc = rt.alloc();
    let mut shelf = MemShelf::new(alloc, Vec::new(alloc));
    shelf.place("f", bytes_of_lines(alloc, row.grid)?)?;
    command(rt, &mut shelf, &["compile", "f", "o"], "", "", Status::Done)?;
    command(rt, &mut shelf, row.run, row.out, row.err, row.status)?;
    // a grid may be compiled into its own file
    command(rt, &mut shelf, &["compile", "f", "f"], "", "", Status::Done)?;
    assert!(rt; shelf.file("f") == shelf.file("o"));
    Ok(())
}

const RUN: &[&str] = &["run", "o"];

fn printed<'a>(grid: &'a [&'a [&'a str]], out: &'a str) -> ScrollRow<'a> {
    ScrollRow {
        grid,
        run: RUN,
        out,
        err: "",
        status: Status::Done,
    }
}

#[test]
fn scrolls(rt: HostRuntime) -> Result<(), Fail> {
    let rows = [
        ScrollRow {
            grid: &[ENDLESS],
            run: &["run", "o", "3000"],
            out: "",
            err: "budget 3000 cycles\n",
            status: Status::Budget,
        },
        ScrollRow {
            grid: &[STUCK_AND_ENDLESS],
            run: &["run", "o", "30000"],
            out: "",
            err: "budget 30000 cycles\n",
            status: Status::Budget,
        },
        printed(&[ADDITION], SUM),
        printed(
            &[STUCK_INSIDE],
            "stuck: bad box 2: no sum\n  in main box 1\n",
        ),
        printed(&[SMALLEST], "()\n"),
        printed(&[USES_ID, ID], "()\n"),
        printed(&[STUCK_TWICE], "stuck: main box 3: no sum\n"),
        printed(&[STUCK_LATE], "stuck: main box 1: no pair\n"),
        printed(&[TWO_RESULTS], "stuck: main: two results\n"),
        printed(&[NO_RESULT], "stuck: main: no result\n"),
        printed(&[TWO_CALLERS], TWO_CALLERS_TEXT),
        printed(&[DEEP_CALLERS], DEEP_CALLERS_TEXT),
    ];
    for row in &rows {
        check_scroll(&rt, row)?;
    }
    Ok(())
}

// a grid of the greatest length, and one byte more
#[test]
fn longest_grid(rt: HostRuntime) -> Result<(), Fail> {
    let mut file = bytes_of_lines(rt.alloc(), &[SMALLEST])?;
    for _ in 0..262_036 {
        file.push(b'\n')?;
    }
    let mut row = Row {
        words: CHECK,
        file: &file,
        input: b"",
        fails: Fails::None,
        out: b"ok 1 1\n",
        err: "",
        status: Status::Done,
        written: None,
    };
    check(&rt, &row)?;
    let mut longer = file.as_slice().to_vec(rt.alloc())?;
    longer.push(b'\n')?;
    row.file = &longer;
    row.out = b"";
    row.err = "refused 1 TooLong\n";
    row.status = Status::Refused;
    check(&rt, &row)
}

// as many modules as a grid has room for
#[test]
fn many_modules(rt: HostRuntime) -> Result<(), Fail> {
    let alloc = rt.alloc();
    let mut file = bytes_of_lines(alloc, &[SMALLEST])?;
    for number in 0..3639 {
        let name = format!(in alloc; "m{number}")?;
        let row = format!(in alloc; ":{name:9}:\n")?;
        file.extend_from_slice(b",.........,\n")?;
        file.extend_from_slice(row.as_bytes())?;
        file.extend_from_slice(b": *======*:\n: !send[]!-\n: *======*:\n'.........'\n")?;
    }
    assert_eq!(rt; file.len(), 262_116);
    check(
        &rt,
        &Row {
            words: CHECK,
            file: &file,
            input: b"",
            fails: Fails::None,
            out: b"ok 3640 3640\n",
            err: "",
            status: Status::Done,
            written: None,
        },
    )
}
