//! `selftest` of some numbers.

use super::{USAGE, check, words, words_of_row};
use crate::{Status, codex};
use std::process::Abort;
use std::test::Fail;
use umix_base::{MemShelf, MemSink, MemSource};

/// What another program finds from a number: bytes, modules and boxes of its grid, and the bytes of its text. Each
/// box fires once, and each module has one instance.
#[derive(Drop)]
struct NumberRow<'a> {
    number: &'a str,
    bytes: u64,
    modules: u64,
    boxes: u64,
    text: u64,
}

fn number_row(number: &str, bytes: u64, modules: u64, boxes: u64, text: u64) -> NumberRow<'_> {
    NumberRow {
        number,
        bytes,
        modules,
        boxes,
        text,
    }
}

// what `selftest` of a number writes, with nothing on `err`, and over an input that would fail
fn told<R: Abort + AllocGlobal>(rt: &R, number: &str) -> Result<Vec<u8>, Fail> {
    let alloc = rt.alloc();
    let words = words_of_row(alloc, &["selftest", number])?;
    let mut shelf = MemShelf::new(alloc, Vec::new(alloc));
    let mut input = MemSource::new(Vec::new(alloc), vec![in alloc; 0]?);
    let mut out = MemSink::new(alloc, 1000, Vec::new(alloc))?;
    let mut err = MemSink::new(alloc, 1000, Vec::new(alloc))?;
    let status = codex(alloc, &words, &mut shelf, &mut input, &mut out, &mut err);
    assert_eq!(rt; err.bytes().len(), 0);
    assert_eq!(rt; status, Status::Done);
    Ok(out.bytes().to_vec(alloc)?)
}

#[test]
fn tells_the_numbers(rt: HostRuntime) -> Result<(), Fail> {
    let rows = [
        number_row("0", 9924, 44, 105, 112),
        number_row("1", 7176, 34, 76, 108),
        number_row("2", 9762, 45, 102, 137),
        number_row("3", 10434, 46, 110, 115),
        number_row("7", 6354, 28, 68, 60),
        number_row("42", 10446, 48, 110, 140),
        number_row("1000", 11670, 52, 124, 131),
        number_row("4294967296", 8874, 39, 94, 93),
        number_row("9223372036854775808", 6018, 27, 64, 69),
        number_row("18446744073709551615", 10890, 48, 115, 124),
    ];
    for row in &rows {
        let NumberRow {
            number,
            bytes,
            modules,
            boxes,
            text,
        } = row;
        let events = format!(in rt.alloc(); "{boxes} firings, {modules} instances")?;
        let lines = format!(in rt.alloc();
            "selftest {number}\ngrid {bytes} bytes, {modules} modules, {boxes} boxes\nfirst {events}\nlast {events}\nlist {events}\ntext {text} bytes\nscroll "
        )?;
        let told = told(&rt, number)?;
        assert!(rt; told.starts_with(lines.as_bytes()));
        assert!(rt; told.ends_with(b" cycles\nok\n"));
    }
    Ok(())
}

#[test]
fn tells_the_same_twice(rt: HostRuntime) -> Result<(), Fail> {
    assert_eq!(rt; told(&rt, "1")?, told(&rt, "1")?);
    Ok(())
}

#[test]
fn takes_no_other_words(rt: HostRuntime) -> Result<(), Fail> {
    let faulty: &[&[&str]] = &[
        &["selftest"],
        &["selftest", "18446744073709551616"],
        &["selftest", "01"],
        &["selftest", "-1"],
        &["selftest", "1", "2"],
    ];
    for list in faulty {
        check(&rt, &words(list, b"", USAGE, Status::Usage))?;
    }
    Ok(())
}
