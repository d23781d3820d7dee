use crate::{Status, explain};
use std::process::Abort;
use std::test::Fail;
use umix_base::{MemShelf, MemSink};

const DRAWING: &[u8] =
    b",.........,\n:main     :\n: *======*:\n: !send[]!-\n: *======*:\n'.........'\n";

/// A call on a shelf with a drawing under `f` and one without a last row under `g`, and what it ends with.
#[derive(Drop)]
struct Row<'a> {
    words: &'a [&'a str],
    status: Status,
    out: &'a str,
    err: &'a str,
}

fn check<R: Abort + AllocGlobal>(rt: &R, row: &Row<'_>) -> Result<(), Fail> {
    let alloc = rt.alloc();
    let mut shelf = MemShelf::new(alloc, Vec::new(alloc));
    shelf.place("f", DRAWING.to_vec(alloc)?)?;
    shelf.place("g", b"'".to_vec(alloc)?)?;
    let mut words = Vec::new(alloc);
    for word in row.words {
        words.push(String::from_str(alloc, word)?)?;
    }
    let mut out = MemSink::new(alloc, 4000, Vec::new(alloc))?;
    let mut err = MemSink::new(alloc, 4000, Vec::new(alloc))?;
    let status = explain(alloc, &words, &mut shelf, &mut out, &mut err);
    assert!(rt; status == row.status);
    assert!(rt; out.bytes().starts_with(row.out.as_bytes()));
    assert!(rt; err.bytes().starts_with(row.err.as_bytes()));
    assert!(rt; out.bytes().is_empty() == row.out.is_empty());
    assert!(rt; err.bytes().is_empty() == row.err.is_empty());
    Ok(())
}

fn expects<'a>(words: &'a [&'a str], status: Status, out: &'a str, err: &'a str) -> Row<'a> {
    Row {
        words,
        status,
        out,
        err,
    }
}

#[test]
fn does_what_the_words_ask_for(rt: HostRuntime) -> Result<(), Fail> {
    check(&rt, &expects(&["grid", "f"], Status::Done, "ok 1 1\n", ""))?;
    let none = "refused 17 NoMain\n";
    check(&rt, &expects(&["grid", "g"], Status::Refused, none, ""))?;
    check(
        &rt,
        &expects(&["grid", "h"], Status::ReadFault, "", "read fault\n"),
    )?;
    let silent = "stuck: main: no result\n";
    check(&rt, &expects(&["stuck", "f"], Status::Stuck, silent, ""))?;
    check(&rt, &expects(&["stuck", "g"], Status::Refused, none, ""))?;
    check(&rt, &expects(&["help"], Status::Done, "explain shows", ""))?;
    check(&rt, &expects(&["grid"], Status::Usage, "", "explain shows"))?;
    check(&rt, &expects(&[], Status::Usage, "", "explain shows"))
}
