//! Files and runs on the limits of the commands, and past them.

use super::{Fails, HELLO, Row, check, command, run};
use crate::Status;
use std::process::Abort;
use std::test::Fail;
use um_word::bytes_of;
use umix_base::MemShelf;

// a command on a file that is refused with this line
fn refused<R: Abort + AllocGlobal>(
    rt: &R,
    words: &[&str],
    file: Vec<u8>,
    line: &str,
) -> Result<(), Fail> {
    let mut shelf = MemShelf::new(rt.alloc(), Vec::new(rt.alloc()));
    shelf.place("f", file)?;
    command(rt, &mut shelf, words, "", line, Status::Refused)
}

#[test]
fn scroll_of_too_many_bytes(rt: HostRuntime) -> Result<(), Fail> {
    let file = vec![in rt.alloc(); 0u8; 67_108_865]?;
    refused(&rt, &["run", "f"], file, "refused 32 ScrollTooLong\n")
}

#[test]
fn text_of_too_many_bytes(rt: HostRuntime) -> Result<(), Fail> {
    let file = vec![in rt.alloc(); b'\n'; 300_000_001]?;
    refused(&rt, &["asm", "f", "o"], file, "refused 46 TextTooLong\n")
}

#[test]
fn text_of_too_many_words(rt: HostRuntime) -> Result<(), Fail> {
    let mut file = Vec::with_capacity(rt.alloc(), 83_886_085)?;
    for _ in 0..16_777_217 {
        file.extend_from_slice(b"halt\n")?;
    }
    refused(&rt, &["asm", "f", "o"], file, "refused 45 TooManyWords\n")
}

// a scroll that allocates empty arrays until no more may be there
#[test]
fn scroll_of_too_many_arrays(rt: HostRuntime) -> Result<(), Fail> {
    let file = bytes_of(rt.alloc(), &[0x8000_0010, 0xc000_0000])?;
    let line = "limit ArraysFull at cycle 33554433: 16777217 over 16777216\n";
    check(&rt, &run(&file, b"", line, Status::Limit))
}

const MANY: &[&str] = &["run", "f", "3000000"];

// a scroll that allocates an array and abandons it, a million times
#[test]
fn scroll_that_abandons_what_it_allocates(rt: HostRuntime) -> Result<(), Fail> {
    let file = bytes_of(rt.alloc(), &[0x8000_000a, 0x9000_0001, 0xc000_0003])?;
    check(
        &rt,
        &Row {
            words: MANY,
            file: &file,
            input: b"",
            fails: Fails::None,
            out: b"",
            err: "budget 3000000 cycles\n",
            status: Status::Budget,
            written: None,
        },
    )
}

// the first scroll, cut short at each byte
#[test]
fn truncated_scrolls(rt: HostRuntime) -> Result<(), Fail> {
    for length in 0..12 {
        let file = &HELLO[..length];
        if length % 4 != 0 {
            let line = format!(in rt.alloc(); "refused 31 Ragged {length}\n")?;
            check(&rt, &run(file, b"", line.as_str(), Status::Refused))?;
        } else {
            let cycle = length / 4 + 1;
            let line = format!(in rt.alloc(); "fault FingerOutside at cycle {cycle}\n")?;
            let out: &[u8] = if length == 8 { b"A" } else { b"" };
            check(&rt, &run(file, out, line.as_str(), Status::MachineFault))?;
        }
    }
    Ok(())
}
