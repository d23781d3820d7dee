//! Each call of the outside fails, one in each run: one table of commands.

use super::drawings::DRAWN;
use super::grids::{ADDITION, BAD_TURN, FIVE_EVENTS, SMALLEST, STUCK_INSIDE, SUM, bytes_of_lines};
use super::images::IMAGE;
use super::sessions::{COMMANDS, REPLIES};
use super::{Fails, HELLO, USAGE, words_of_row};
use crate::{Status, codex};
use std::alloc::Global;
use std::process::Abort;
use std::test::Fail;
use umix_base::{MemShelf, MemSink, MemSource};

/// An object of the outside. A shelf keeps so many bytes of a file that it can't write.
#[derive(Clone, Copy, PartialEq, Eq, Drop)]
enum Object {
    Shelf(Option<usize>),
    Input,
    Out,
    Err,
}

fn failing(object: Object, call: u64) -> Fails {
    match object {
        Object::Shelf(kept) => Fails::Shelf(call, kept),
        Object::Input => Fails::Input(call),
        Object::Out => Fails::Out(call),
        Object::Err => Fails::Err(call),
    }
}

/// What a command came to.
#[derive(Drop)]
struct Came {
    status: Status,
    shelf: MemShelf,
    out: MemSink,
    err: MemSink,
}

// a sheet of types for the smallest grid
const SHEET: &[u8] = b"type u = ()\nmodule main e u\nwire main 1 E u\n";

// What a command on the file `f` comes to where this call fails, if it is made. The input is that
// of a session, the file `i` is empty, and `s` is a sheet of types.
fn come_to(alloc: Global, words: &[&str], file: &[u8], fails: Fails) -> Result<Came, Fail> {
    let words = words_of_row(alloc, words)?;
    let mut shelf = MemShelf::new(alloc, fails.of_shelf(alloc)?);
    shelf.place("f", file.to_vec(alloc)?)?;
    shelf.place("i", Vec::new(alloc))?;
    shelf.place("s", SHEET.to_vec(alloc)?)?;
    let mut input = MemSource::new(COMMANDS.to_vec(alloc)?, fails.of_input(alloc)?);
    let mut out = MemSink::new(alloc, 1000, fails.of_out(alloc)?)?;
    let mut err = MemSink::new(alloc, 1000, fails.of_err(alloc)?)?;
    let status = codex(alloc, &words, &mut shelf, &mut input, &mut out, &mut err);
    Ok(Came {
        status,
        shelf,
        out,
        err,
    })
}

// the status, the output and the line are these
fn is_told(came: &Came, status: Status, out: &[u8], line: &[u8]) -> bool {
    came.status == status && came.out.bytes() == out && came.err.bytes() == line
}

// both came to the same
fn is_same(came: &Came, whole: &Came) -> bool {
    is_told(came, whole.status, whole.out.bytes(), whole.err.bytes())
        && came.shelf.file("o") == whole.shelf.file("o")
}

// a file couldn't be read: nothing is written
fn is_unread(came: &Came) -> bool {
    is_told(came, Status::ReadFault, b"", b"read fault\n") && came.shelf.file("o").is_none()
}

// the file `o` couldn't be written: so many of its bytes are there, and all of the output went out
fn is_unwritten(came: &Came, whole: &Came, kept: Option<usize>) -> bool {
    is_told(
        came,
        Status::WriteFault,
        whole.out.bytes(),
        b"write fault\n",
    ) && came.shelf.file("o") == beginning(whole.shelf.file("o"), kept)
}

fn beginning(bytes: Option<&[u8]>, kept: Option<usize>) -> Option<&[u8]> {
    bytes?.get(..kept?)
}

// the status and the line are these, and of the output a beginning went out
fn is_cut(came: &Came, whole: &Came, status: Status, line: &[u8]) -> bool {
    is_told(came, status, came.out.bytes(), line)
        && whole.out.bytes().starts_with(came.out.bytes())
        && came.shelf.file("o").is_none()
}

// all is as in the whole, but of the line a beginning went out
fn is_untold(came: &Came, whole: &Came) -> bool {
    is_told(
        came,
        Status::WriteFault,
        whole.out.bytes(),
        came.err.bytes(),
    ) && whole.err.bytes().starts_with(came.err.bytes())
        && came.shelf.file("o") == whole.shelf.file("o")
}

// it came to what it may come to where a call of the object fails
fn is_right(came: &Came, whole: &Came, object: Object) -> bool {
    match object {
        Object::Shelf(kept) => is_unread(came) || is_unwritten(came, whole, kept),
        Object::Input => is_cut(came, whole, Status::ReadFault, b"read fault\n"),
        Object::Out => is_cut(came, whole, Status::WriteFault, b"write fault\n"),
        Object::Err => is_untold(came, whole),
    }
}

// this call of the object is made, and fails; where it isn't made, the command comes to the whole
fn is_made<R: Abort + AllocGlobal>(
    rt: &R,
    words: &[&str],
    file: &[u8],
    whole: &Came,
    object: Object,
    call: u64,
) -> Result<bool, Fail> {
    let came = come_to(rt.alloc(), words, file, failing(object, call))?;
    let made = !is_same(&came, whole);
    assert!(rt; !made || is_right(&came, whole, object));
    Ok(made)
}

// the number of calls of the object that the command makes, each of which fails in a run of its own
fn calls_of<R: Abort + AllocGlobal>(
    rt: &R,
    words: &[&str],
    file: &[u8],
    whole: &Came,
    object: Object,
) -> Result<u64, Fail> {
    for call in 0..1000 {
        if !is_made(rt, words, file, whole, object, call)? {
            return Ok(call);
        }
    }
    Ok(1000)
}

// Each call of each object fails. So many are made of the shelf and of the input; and of the output
// and of `err` some exactly where something is written there.
fn fail_in_turn<R: Abort + AllocGlobal>(
    rt: &R,
    words: &[&str],
    file: &[u8],
    whole: &Came,
    calls: (u64, u64),
) -> Result<(), Fail> {
    for kept in [None, Some(5)] {
        let files = calls_of(rt, words, file, whole, Object::Shelf(kept))?;
        assert_eq!(rt; files, calls.0);
    }
    let input = calls_of(rt, words, file, whole, Object::Input)?;
    assert_eq!(rt; input, calls.1);
    let sent = calls_of(rt, words, file, whole, Object::Out)?;
    assert_eq!(rt; sent == 0, whole.out.bytes().is_empty());
    let told = calls_of(rt, words, file, whole, Object::Err)?;
    assert_eq!(rt; told == 0, whole.err.bytes().is_empty());
    Ok(())
}

// a command on the file `f` comes to this where nothing fails; and then each call of the outside
// fails in turn
fn case<R: Abort + AllocGlobal>(
    rt: &R,
    words: &[&str],
    file: &[u8],
    calls: (u64, u64),
    out: &str,
    err: &str,
    status: Status,
) -> Result<(), Fail> {
    let whole = come_to(rt.alloc(), words, file, Fails::None)?;
    assert!(rt; is_told(&whole, status, out.as_bytes(), err.as_bytes()));
    fail_in_turn(rt, words, file, &whole, calls)
}

// a scroll that writes its first byte of input
const ECHO: &[u8] = &[0xb0, 0, 0, 0, 0xa0, 0, 0, 0, 0x70, 0, 0, 0];

// the image of that scroll after its first cycle, which took an `s`
const ECHO_IMAGE: &[u8] = &[
    0x55, 0x4d, 0x49, 0x31, 0, 0, 0, 0x73, 0, 0, 0, 0, 0, 0, 0, 0, 0, 0, 0, 0, 0, 0, 0, 0, 0, 0, 0,
    0, 0, 0, 0, 0, 0, 0, 0, 0, 0, 0, 0, 1, 0, 0, 0, 0, 0, 0, 0, 1, 0, 0, 0, 0, 0, 0, 0, 1, 0, 0, 0,
    0, 0, 0, 0, 0, 0, 0, 0, 0, 0, 0, 0, 3, 0xb0, 0, 0, 0, 0xa0, 0, 0, 0, 0x70, 0, 0, 0,
];

const LISTING: &str = "set r0, 65\nout r0\nhalt\n";

#[test]
fn on_scrolls(rt: HostRuntime) -> Result<(), Fail> {
    let divides = "fault DivideByZero at cycle 1\n";
    let spent = "budget 2 cycles\n";
    case(&rt, &["run", "f"], HELLO, (1, 0), "A", "", Status::Done)?;
    case(&rt, &["run", "f"], ECHO, (1, 1), "s", "", Status::Done)?;
    case(
        &rt,
        &["run", "f"],
        &[0x50, 0, 0, 0],
        (1, 0),
        "",
        divides,
        Status::MachineFault,
    )?;
    case(
        &rt,
        &["run", "f", "2"],
        HELLO,
        (1, 0),
        "A",
        spent,
        Status::Budget,
    )?;
    case(
        &rt,
        &["run", "g"],
        HELLO,
        (0, 0),
        "",
        "read fault\n",
        Status::ReadFault,
    )?;
    case(&rt, &["run"], HELLO, (0, 0), "", USAGE, Status::Usage)
}

#[test]
fn on_scrolls_shown(rt: HostRuntime) -> Result<(), Fail> {
    case(&rt, &["dis", "f"], HELLO, (1, 0), LISTING, "", Status::Done)?;
    case(
        &rt,
        &["debug", "f", "i"],
        HELLO,
        (2, 16),
        REPLIES,
        "",
        Status::Done,
    )
}

#[test]
fn on_scrolls_saved(rt: HostRuntime) -> Result<(), Fail> {
    let divides = "fault DivideByZero at cycle 1\n";
    let save = &["save", "f", "2", "o"];
    case(&rt, save, HELLO, (2, 0), "A", "", Status::Done)?;
    case(&rt, save, ECHO, (2, 1), "s", "", Status::Done)?;
    case(
        &rt,
        save,
        &[0x50, 0, 0, 0],
        (1, 0),
        "",
        divides,
        Status::MachineFault,
    )
}

#[test]
fn on_images(rt: HostRuntime) -> Result<(), Fail> {
    let spent = "budget 1 cycles\n";
    case(
        &rt,
        &["resume", "f", "1"],
        IMAGE,
        (1, 0),
        "",
        "",
        Status::Done,
    )?;
    case(
        &rt,
        &["resume", "f", "1"],
        ECHO_IMAGE,
        (1, 1),
        "s",
        spent,
        Status::Budget,
    )?;
    case(
        &rt,
        &["resume", "f", "1"],
        HELLO,
        (1, 0),
        "",
        "refused 82 BadImage 0\n",
        Status::Refused,
    )
}

#[test]
fn on_numbers(rt: HostRuntime) -> Result<(), Fail> {
    let words = &["selftest", "2"];
    let whole = come_to(rt.alloc(), words, b"", Fails::None)?;
    assert_eq!(rt; whole.status, Status::Done);
    assert!(rt; whole.out.bytes().ends_with(b" cycles\nok\n"));
    fail_in_turn(&rt, words, b"", &whole, (0, 0))
}

#[test]
fn on_drawings(rt: HostRuntime) -> Result<(), Fail> {
    let words = &["draw", "f"];
    let file = bytes_of_lines(rt.alloc(), &[SMALLEST])?;
    let drawing = bytes_of_lines(rt.alloc(), &[DRAWN])?;
    let whole = come_to(rt.alloc(), words, &file, Fails::None)?;
    assert!(rt; is_told(&whole, Status::Done, &drawing, b""));
    fail_in_turn(&rt, words, &file, &whole, (1, 0))
}

#[test]
fn on_texts(rt: HostRuntime) -> Result<(), Fail> {
    let bad = "refused 41 BadLine 1\n";
    case(
        &rt,
        &["asm", "f", "o"],
        LISTING.as_bytes(),
        (2, 0),
        "",
        "",
        Status::Done,
    )?;
    case(
        &rt,
        &["asm", "f", "o"],
        b"halt r0\n",
        (1, 0),
        "",
        bad,
        Status::Refused,
    )
}

#[test]
fn on_grids(rt: HostRuntime) -> Result<(), Fail> {
    let sum = bytes_of_lines(rt.alloc(), &[ADDITION])?;
    let trace = &["trace", "f", "first", "5"];
    let spent = "budget 5 events\n";
    case(
        &rt,
        &["check", "f"],
        &sum,
        (1, 0),
        "ok 2 7\n",
        "",
        Status::Done,
    )?;
    case(&rt, &["eval", "f"], &sum, (1, 0), SUM, "", Status::Done)?;
    case(&rt, trace, &sum, (1, 0), FIVE_EVENTS, spent, Status::Budget)
}

#[test]
fn on_stuck_and_refused_grids(rt: HostRuntime) -> Result<(), Fail> {
    let stuck = bytes_of_lines(rt.alloc(), &[STUCK_INSIDE])?;
    let bad = bytes_of_lines(rt.alloc(), &[BAD_TURN])?;
    let text = "stuck: bad box 2: no sum\n  in main box 1\n";
    let refused = "refused 13 BadTurn at 3:4\n";
    case(&rt, &["eval", "f"], &stuck, (1, 0), text, "", Status::Stuck)?;
    case(
        &rt,
        &["compile", "f", "o"],
        &bad,
        (1, 0),
        "",
        refused,
        Status::Refused,
    )
}

#[test]
fn on_grids_compiled(rt: HostRuntime) -> Result<(), Fail> {
    let file = bytes_of_lines(rt.alloc(), &[SMALLEST])?;
    case(
        &rt,
        &["compile", "f", "o"],
        &file,
        (2, 0),
        "",
        "",
        Status::Done,
    )
}

#[test]
fn on_grids_typed(rt: HostRuntime) -> Result<(), Fail> {
    let file = bytes_of_lines(rt.alloc(), &[SMALLEST])?;
    let typed = "typed 1 modules, 1 types\n";
    let missing = "refused 76 NoLine main\n";
    case(
        &rt,
        &["type", "f", "s"],
        &file,
        (2, 0),
        typed,
        "",
        Status::Done,
    )?;
    case(
        &rt,
        &["type", "f", "i"],
        &file,
        (2, 0),
        "",
        missing,
        Status::Refused,
    )
}
