//! Worked rows of the commands, over an outside in memory.

mod drawings;
mod failures;
mod grids;
mod images;
mod limits;
mod loads;
mod meanings;
mod selftests;
mod sessions;
mod types;

use crate::{Status, codex};
use std::alloc::Global;
use std::process::Abort;
use std::test::Fail;
use um_word::{ScrollFault, bytes_of};
use umix_base::{MemShelf, MemSink, MemSource, ShelfFail};

/// One row: the words, the bytes of the file `f`, the input, the call that fails, if one does, and
/// what is expected.
#[derive(Drop)]
struct Row<'a> {
    words: &'a [&'a str],
    file: &'a [u8],
    input: &'a [u8],
    fails: Fails,
    out: &'a [u8],
    err: &'a str,
    status: Status,
    /// What the file `o` holds after, if it is there.
    written: Option<&'a [u8]>,
}

/// The call that fails, by its number from 0.
#[derive(Clone, Copy, PartialEq, Eq, Drop)]
enum Fails {
    None,
    /// A call of the shelf, which keeps so many bytes of what was to be written.
    Shelf(u64, Option<usize>),
    Input(u64),
    Out(u64),
    Err(u64),
}

impl Fails {
    fn of_shelf(self, alloc: Global) -> Result<Vec<ShelfFail>, Fail> {
        let mut fails = Vec::new(alloc);
        if let Fails::Shelf(call, kept) = self {
            fails.push(ShelfFail { call, kept })?;
        }
        Ok(fails)
    }

    fn of_input(self, alloc: Global) -> Result<Vec<u64>, Fail> {
        let mut fails = Vec::new(alloc);
        if let Fails::Input(call) = self {
            fails.push(call)?;
        }
        Ok(fails)
    }

    fn of_out(self, alloc: Global) -> Result<Vec<u64>, Fail> {
        let mut fails = Vec::new(alloc);
        if let Fails::Out(call) = self {
            fails.push(call)?;
        }
        Ok(fails)
    }

    fn of_err(self, alloc: Global) -> Result<Vec<u64>, Fail> {
        let mut fails = Vec::new(alloc);
        if let Fails::Err(call) = self {
            fails.push(call)?;
        }
        Ok(fails)
    }
}

fn words_of_row(alloc: Global, list: &[&str]) -> Result<Vec<String>, Fail> {
    let mut words = Vec::new(alloc);
    for word in list {
        words.push(String::from_str(alloc, word)?)?;
    }
    Ok(words)
}

fn check<R: Abort + AllocGlobal>(rt: &R, row: &Row<'_>) -> Result<(), Fail> {
    let alloc = rt.alloc();
    let words = words_of_row(alloc, row.words)?;
    let mut shelf = MemShelf::new(alloc, row.fails.of_shelf(alloc)?);
    shelf.place("f", row.file.to_vec(alloc)?)?;
    let mut input = MemSource::new(row.input.to_vec(alloc)?, row.fails.of_input(alloc)?);
    let mut out = MemSink::new(alloc, 1000, row.fails.of_out(alloc)?)?;
    let mut err = MemSink::new(alloc, 1000, row.fails.of_err(alloc)?)?;
    let status = codex(alloc, &words, &mut shelf, &mut input, &mut out, &mut err);
    assert_eq!(rt; status, row.status);
    assert_eq!(rt; out.bytes(), row.out);
    assert_eq!(rt; err.bytes(), row.err.as_bytes());
    assert_eq!(rt; shelf.file("o"), row.written);
    Ok(())
}

// does what the words ask for over a shelf that stays
fn command<R: Abort + AllocGlobal>(
    rt: &R,
    shelf: &mut MemShelf,
    words: &[&str],
    out: &str,
    err: &str,
    status: Status,
) -> Result<(), Fail> {
    let alloc = rt.alloc();
    let words = words_of_row(alloc, words)?;
    let mut input = MemSource::new(Vec::new(alloc), Vec::new(alloc));
    let mut written = MemSink::new(alloc, 1000, Vec::new(alloc))?;
    let mut line = MemSink::new(alloc, 1000, Vec::new(alloc))?;
    let ended = codex(alloc, &words, shelf, &mut input, &mut written, &mut line);
    assert_eq!(rt; line.bytes(), err.as_bytes());
    assert_eq!(rt; written.bytes(), out.as_bytes());
    assert_eq!(rt; ended, status);
    Ok(())
}

// the first scroll: it writes `A`
const HELLO: &[u8] = &[0xd0, 0, 0, 0x41, 0xa0, 0, 0, 0, 0x70, 0, 0, 0];

const RUN: &[&str] = &["run", "f"];

// a run of a file that ends with this line and status
fn run<'a>(file: &'a [u8], out: &'a [u8], err: &'a str, status: Status) -> Row<'a> {
    Row {
        words: RUN,
        file,
        input: &[],
        fails: Fails::None,
        out,
        err,
        status,
        written: None,
    }
}

#[test]
fn scrolls(rt: HostRuntime) -> Result<(), Fail> {
    let rows = [
        run(HELLO, b"A", "", Status::Done),
        run(
            &[],
            b"",
            "fault FingerOutside at cycle 1\n",
            Status::MachineFault,
        ),
        run(
            &[0x70, 0, 0, 0, 0],
            b"",
            "refused 31 Ragged 5\n",
            Status::Refused,
        ),
        run(
            &[0x50, 0, 0, 0],
            b"",
            "fault DivideByZero at cycle 1\n",
            Status::MachineFault,
        ),
        run(
            &[0xd0, 0, 1, 0, 0xa0, 0, 0, 0, 0x70, 0, 0, 0],
            b"",
            "fault OutputTooLarge at cycle 2\n",
            Status::MachineFault,
        ),
        run(
            &[0xd0, 0, 0, 0xff, 0xa0, 0, 0, 0, 0x70, 0, 0, 0],
            b"\xff",
            "",
            Status::Done,
        ),
        run(
            &[
                0xb0, 0, 0, 0, 0x60, 0, 0, 0x40, 0xa0, 0, 0, 1, 0x70, 0, 0, 0,
            ],
            b"\x00",
            "",
            Status::Done,
        ),
        run(
            &[0x80, 0, 0, 8, 0x10, 0, 0, 8],
            b"",
            "fault IndexOutside at cycle 2\n",
            Status::MachineFault,
        ),
        run(
            &[0x80, 0, 0, 8, 0xc0, 0, 0, 8],
            b"",
            "fault FingerOutside at cycle 3\n",
            Status::MachineFault,
        ),
        run(
            &[0xe0, 0, 0, 0],
            b"",
            "fault BadOperator at cycle 1\n",
            Status::MachineFault,
        ),
        run(
            &[0x90, 0, 0, 0],
            b"",
            "fault AbandonZero at cycle 1\n",
            Status::MachineFault,
        ),
        run(
            &[0x80, 0, 0, 8],
            b"",
            "fault FingerOutside at cycle 2\n",
            Status::MachineFault,
        ),
    ];
    for row in &rows {
        check(&rt, row)?;
    }
    Ok(())
}

// a scroll that sets register 1 to 7 and then has this word
fn after_seven(alloc: Global, word: u32) -> Result<Vec<u8>, Fail> {
    Ok(bytes_of(alloc, &[0xd200_0007, word])?)
}

#[test]
fn faults_of_arrays(rt: HostRuntime) -> Result<(), Fail> {
    let rows = [
        (0x1000_0001, "fault IndexOutside at cycle 2\n"),
        (0x2000_0008, "fault AmendOutside at cycle 2\n"),
        (0x1000_0008, "fault IndexInactive at cycle 2\n"),
        (0x2000_0040, "fault AmendInactive at cycle 2\n"),
        (0x9000_0001, "fault AbandonInactive at cycle 2\n"),
        (0xc000_0008, "fault LoadInactive at cycle 2\n"),
    ];
    for (word, err) in rows {
        let file = after_seven(rt.alloc(), word)?;
        check(&rt, &run(&file, b"", err, Status::MachineFault))?;
    }
    let full = bytes_of(
        rt.alloc(),
        &[
            0xd300_0000,
            0xd400_0010,
            0x4000_000a,
            0x8000_0018,
            0x7000_0000,
        ],
    )?;
    let line = "limit WordsFull at cycle 4: 268435461 over 268435456\n";
    check(&rt, &run(&full, b"", line, Status::Limit))
}

// words that end so, over the first scroll
fn words<'a>(words: &'a [&'a str], out: &'a [u8], err: &'a str, status: Status) -> Row<'a> {
    Row {
        words,
        file: HELLO,
        input: &[],
        fails: Fails::None,
        out,
        err,
        status,
        written: None,
    }
}

const USAGE: &str =
    "usage: check F | eval F [PICKS [N]] | trace F PICKS N | compile F OUT | run F [N] | asm F \
        OUT | dis F | debug F INPUT | selftest N | draw F | type F SHEET | save F N OUT | resume \
        F N\n";

#[test]
fn command_lines(rt: HostRuntime) -> Result<(), Fail> {
    let rows = [
        words(&[], b"", USAGE, Status::Usage),
        words(&["eval", "f", "1,,2"], b"", USAGE, Status::Usage),
        words(&["run"], b"", USAGE, Status::Usage),
        words(&["run", "f", "03"], b"", USAGE, Status::Usage),
        words(&["run", "f", "+3"], b"", USAGE, Status::Usage),
        words(
            &["run", "f", "4611686018427387905"],
            b"",
            USAGE,
            Status::Usage,
        ),
        words(&["run", "f", "1", "2"], b"", USAGE, Status::Usage),
        words(&["--help"], b"", USAGE, Status::Usage),
        words(&["run", "f", "4611686018427387904"], b"A", "", Status::Done),
        words(&["run", "f", "3"], b"A", "", Status::Done),
        words(
            &["run", "f", "2"],
            b"A",
            "budget 2 cycles\n",
            Status::Budget,
        ),
        words(&["run", "f", "0"], b"", "budget 0 cycles\n", Status::Budget),
        words(&["run", "none.um"], b"", "read fault\n", Status::ReadFault),
        words(&["debug", "f"], b"", USAGE, Status::Usage),
    ];
    for row in &rows {
        check(&rt, row)?;
    }
    let mut endless = words(
        &["run", "f", "10"],
        b"",
        "budget 10 cycles\n",
        Status::Budget,
    );
    endless.file = &[0xc0, 0, 0, 0];
    check(&rt, &endless)
}

// a run of which the first call of one object fails
fn failing<'a>(
    fails: Fails,
    file: &'a [u8],
    out: &'a [u8],
    err: &'a str,
    status: Status,
) -> Row<'a> {
    Row {
        words: RUN,
        file,
        input: b"x",
        fails,
        out,
        err,
        status,
        written: None,
    }
}

#[test]
fn failures_outside(rt: HostRuntime) -> Result<(), Fail> {
    let input = &[0xb0, 0, 0, 0, 0x70, 0, 0, 0];
    let rows = [
        failing(
            Fails::Shelf(0, None),
            HELLO,
            b"",
            "read fault\n",
            Status::ReadFault,
        ),
        failing(
            Fails::Input(0),
            input,
            b"",
            "read fault\n",
            Status::ReadFault,
        ),
        failing(Fails::None, input, b"", "", Status::Done),
        failing(
            Fails::Out(0),
            HELLO,
            b"",
            "write fault\n",
            Status::WriteFault,
        ),
        failing(Fails::Err(0), &[0x50, 0, 0, 0], b"", "", Status::WriteFault),
        failing(Fails::Err(0), HELLO, b"A", "", Status::Done),
    ];
    for row in &rows {
        check(&rt, row)?;
    }
    Ok(())
}

// a text that is assembled into `o`, or refused with this line
fn text<'a>(text: &'a str, written: Option<&'a [u8]>, err: &'a str, status: Status) -> Row<'a> {
    Row {
        words: &["asm", "f", "o"],
        file: text.as_bytes(),
        input: &[],
        fails: Fails::None,
        out: b"",
        err,
        status,
        written,
    }
}

#[test]
fn texts(rt: HostRuntime) -> Result<(), Fail> {
    let rows = [
        text("set r0, 65\nout r0\nhalt\n", Some(HELLO), "", Status::Done),
        text("", Some(b""), "", Status::Done),
        text(
            "set r0, 33554432\n",
            None,
            "refused 44 ValueTooLarge 1\n",
            Status::Refused,
        ),
        text(
            ".hex 7000020\n",
            None,
            "refused 41 BadLine 1\n",
            Status::Refused,
        ),
        text(
            "a: halt\na: halt\n",
            None,
            "refused 42 SameLabel 2\n",
            Status::Refused,
        ),
        text(
            "\nset r0, b\n",
            None,
            "refused 43 NoLabel 2\n",
            Status::Refused,
        ),
        words(
            &["asm", "none.s", "o"],
            b"",
            "read fault\n",
            Status::ReadFault,
        ),
        words(&["asm", "f"], b"", USAGE, Status::Usage),
        words(
            &["dis", "f"],
            b"set r0, 65\nout r0\nhalt\n",
            "",
            Status::Done,
        ),
        words(&["dis", "none.um"], b"", "read fault\n", Status::ReadFault),
        words(&["dis", "f", "o"], b"", USAGE, Status::Usage),
    ];
    for row in &rows {
        check(&rt, row)?;
    }
    Ok(())
}

// commands whose output or file can't be written
#[test]
fn failed_writes(rt: HostRuntime) -> Result<(), Fail> {
    let mut row = text(
        "set r0, 65\nout r0\nhalt\n",
        None,
        "write fault\n",
        Status::WriteFault,
    );
    row.fails = Fails::Shelf(1, None);
    check(&rt, &row)?;
    row.fails = Fails::Shelf(1, Some(5));
    row.written = Some(&HELLO[..5]);
    check(&rt, &row)?;
    let mut row = words(&["dis", "f"], b"", "write fault\n", Status::WriteFault);
    row.fails = Fails::Out(0);
    check(&rt, &row)
}

#[test]
fn messages_of_scroll_faults(rt: HostRuntime) -> Result<(), Fail> {
    let faults = [
        (ScrollFault::TooLong(67_108_865), "TooLong"),
        (ScrollFault::Ragged(5), "Ragged"),
        (ScrollFault::Memory, "Memory"),
    ];
    for (fault, message) in &faults {
        assert_eq!(rt; format!(in rt.alloc(); "{fault}")?.as_str(), *message);
    }
    Ok(())
}
