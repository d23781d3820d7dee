//! Worked rows of the command `debug`, and of commands whose calls fail.

use super::{Fails, HELLO, words_of_row};
use crate::{Status, codex};
use std::process::Abort;
use std::test::Fail;
use umix_base::{MemShelf, MemSink, MemSource};

pub(super) const COMMANDS: &[u8] = b"s 1\nr\nf\nc 9\nx\nq\n";

pub(super) const REPLIES: &str = "stopped cycles 1 finger 1\n\
        00000041 00000000 00000000 00000000 00000000 00000000 00000000 00000000\n\
        finger 1 cycles 1 arrays 0 words 3 next out r0\nAhalted cycles 3\n?\n";

/// A session on a scroll in the file `f`, with the input in the file `i`, if it is there.
#[derive(Drop)]
struct Sitting<'a> {
    file: &'a [u8],
    input: Option<&'a [u8]>,
    commands: &'a [u8],
    fails: Fails,
    out: &'a str,
    err: &'a str,
    status: Status,
}

fn sit<R: Abort + AllocGlobal>(rt: &R, row: &Sitting<'_>) -> Result<(), Fail> {
    let alloc = rt.alloc();
    let words = words_of_row(alloc, &["debug", "f", "i"])?;
    let mut shelf = MemShelf::new(alloc, row.fails.of_shelf(alloc)?);
    shelf.place("f", row.file.to_vec(alloc)?)?;
    if let Some(bytes) = row.input {
        shelf.place("i", bytes.to_vec(alloc)?)?;
    }
    let mut commands = MemSource::new(row.commands.to_vec(alloc)?, row.fails.of_input(alloc)?);
    let mut out = MemSink::new(alloc, 3_000_000, row.fails.of_out(alloc)?)?;
    let mut err = MemSink::new(alloc, 1000, row.fails.of_err(alloc)?)?;
    let status = codex(alloc, &words, &mut shelf, &mut commands, &mut out, &mut err);
    assert_eq!(rt; err.bytes(), row.err.as_bytes());
    assert!(rt; out.bytes() == row.out.as_bytes());
    assert_eq!(rt; status, row.status);
    Ok(())
}

fn done<'a>(commands: &'a [u8], out: &'a str) -> Sitting<'a> {
    Sitting {
        file: HELLO,
        input: Some(b""),
        commands,
        fails: Fails::None,
        out,
        err: "",
        status: Status::Done,
    }
}

fn failed<'a>(fails: Fails, out: &'a str, err: &'a str, status: Status) -> Sitting<'a> {
    Sitting {
        file: HELLO,
        input: Some(b""),
        commands: COMMANDS,
        fails,
        out,
        err,
        status,
    }
}

#[test]
fn sessions(rt: HostRuntime) -> Result<(), Fail> {
    let rows = [
        done(COMMANDS, REPLIES),
        done(
            b"b 1\nc 9\nw 0 2\nb 1\n",
            "b 1 on\nbreak 1 cycles 1\nw 0 2 on\nb 1 off\n",
        ),
        done(b"", ""),
        failed(
            Fails::Input(5),
            "stopped cycles 1 finger 1\n",
            "read fault\n",
            Status::ReadFault,
        ),
        failed(Fails::Input(0), "", "read fault\n", Status::ReadFault),
        failed(Fails::Out(0), "", "write fault\n", Status::WriteFault),
        failed(Fails::Shelf(0, None), "", "read fault\n", Status::ReadFault),
        failed(Fails::Shelf(1, None), "", "read fault\n", Status::ReadFault),
        failed(Fails::Err(0), REPLIES, "", Status::Done),
    ];
    for row in &rows {
        sit(&rt, row)?;
    }
    let mut row = done(b"c 9\nq\n", "xhalted cycles 3\n");
    row.file = &[0xb0, 0, 0, 0, 0xa0, 0, 0, 0, 0x70, 0, 0, 0];
    row.input = Some(b"xyz");
    sit(&rt, &row)?;
    let mut missing = failed(Fails::None, "", "read fault\n", Status::ReadFault);
    missing.input = None;
    sit(&rt, &missing)?;
    missing.file = b"abcde";
    missing.err = "refused 31 Ragged 5\n";
    missing.status = Status::Refused;
    sit(&rt, &missing)
}

// The commands fail at each of their calls: the lines before it are answered. Each row: the first
// call of a line, the first of the next, and how many bytes went out before.
#[test]
fn commands_that_fail(rt: HostRuntime) -> Result<(), Fail> {
    let lines = [
        (0, 4, 0),
        (4, 6, 26),
        (6, 8, 98),
        (8, 12, 145),
        (12, 14, 162),
        (14, 16, 164),
    ];
    for (first, next, sent) in lines {
        for call in first..next {
            sit(
                &rt,
                &failed(
                    Fails::Input(call),
                    begun(sent),
                    "read fault\n",
                    Status::ReadFault,
                ),
            )?;
        }
    }
    Ok(())
}

// so many bytes of the replies
fn begun(sent: usize) -> &'static str {
    match REPLIES.get(..sent) {
        Some(text) => text,
        None => "",
    }
}

#[test]
fn input_of_too_many_bytes(rt: HostRuntime) -> Result<(), Fail> {
    let bytes = vec![in rt.alloc(); 0u8; 67_108_865]?;
    let mut row = failed(
        Fails::None,
        "",
        "refused 51 InputTooLong\n",
        Status::Refused,
    );
    row.input = Some(&bytes);
    sit(&rt, &row)
}

#[test]
fn as_many_lines_as_may_be(rt: HostRuntime) -> Result<(), Fail> {
    let alloc = rt.alloc();
    let mut commands = vec![in alloc; b'\n'; 1_000_000]?;
    commands.push(b'q')?;
    let mut replies = String::new(alloc);
    for _ in 0..1_000_000 {
        replies.push_str("?\n")?;
    }
    let mut row = failed(
        Fails::None,
        replies.as_str(),
        "budget 1000000 lines\n",
        Status::Budget,
    );
    row.commands = &commands;
    sit(&rt, &row)
}
