use crate::{BoxFault, parse, show};
use std::alloc::Global;
use std::test::Fail;

/// What a text is read as: its canonical text, or the refusal and its place.
#[derive(Clone, Copy)]
enum Reading {
    Shown(&'static [u8]),
    Read,
    Bad(usize),
    TooDeep(usize),
}

use Reading::{Bad, Read, Shown, TooDeep};

fn reads(alloc: Global, text: &[u8], wanted: Reading) -> Result<bool, Fail> {
    match (parse(alloc, text), wanted) {
        (Ok(command), Shown(canonical)) => Ok(show(alloc, &command)?.as_slice() == canonical),
        (Ok(_), Read) => Ok(true),
        (Err(BoxFault::Bad(k)), Bad(place)) => Ok(k == place),
        (Err(BoxFault::TooDeep(k)), TooDeep(place)) => Ok(k == place),
        _ => Ok(false),
    }
}

#[test]
fn each_text_is_read_or_refused_at_its_byte(rt: HostRuntime) -> Result<(), Fail> {
    let rows: [(&[u8], Reading); 40] = [
        (b"sendx", Bad(4)),
        (b"send[((),S),((),S)]", Bad(16)),
        (b"   ", Bad(3)),
        (b"use\"plus\"", Shown(b"use plus")),
        (b"send[((W),E)]", Shown(b"send [(W,E)]")),
        (b"send[]", Shown(b"send []")),
        (
            b"  send [ ( Inl ( N , W ) , E ) ]  ",
            Shown(b"send [(Inl (N,W),E)]"),
        ),
        (
            b"send[(Inl N,S),((W,()),E)]",
            Shown(b"send [(Inl N,S),((W,()),E)]"),
        ),
        (b"case(N)of S,S", Shown(b"case N of S,S")),
        (b"split Inr(W)", Shown(b"split Inr W")),
        (b"use send", Shown(b"use send")),
        (b"", Bad(0)),
        (b"us", Bad(2)),
        (b"case N o", Bad(8)),
        (b"send [(I", Bad(8)),
        (b"split ", Bad(6)),
        (b"use \"pl", Bad(7)),
        (b"send [(N,S)", Bad(11)),
        (b"case N of S,", Bad(12)),
        (b"split N)", Bad(7)),
        (b"send [] send", Bad(8)),
        (b"send [(N,S),(N,E),", Bad(17)),
        (b"use a b", Bad(6)),
        (b"usx", Bad(2)),
        (b"case No", Bad(6)),
        (b"splitN", Bad(5)),
        (b"case N ofS,E", Bad(9)),
        (b"send [(Inx", Bad(9)),
        (b"case ((N,W)of S,E", Bad(11)),
        (b"use 9a", Bad(4)),
        (b"use Plus", Bad(4)),
        (b"use plusX", Bad(8)),
        (b"use \" a\"", Bad(5)),
        (b"use \"a \"", Bad(6)),
        (b"use \"\"", Bad(5)),
        (b"use \"a\"b", Bad(7)),
        (b"use 9", Bad(4)),
        (b"split \x7f", Bad(6)),
        (b"split\xff", Bad(5)),
        (b"split\tN", Bad(5)),
    ];
    for (text, wanted) in &rows {
        assert!(rt; reads(rt.alloc(), text, *wanted)?, "{text:?}");
    }

    // A text with a part that comes many times.
    let long: [(&[u8], &[u8], usize, &[u8], Reading); 15] = [
        (b"send [(", b"Inl ", 64, b"N,E)]", Read),
        (b"send [(", b"Inl ", 65, b"N,E)]", TooDeep(263)),
        (b"split ", b"(", 65, b"", TooDeep(70)),
        (b"split ", b"(", 64, b"N", Bad(71)),
        (b"split ", b"(", 63, b"()", Bad(71)),
        (b"split ", b"(", 64, b"()", TooDeep(70)),
        (b"split ", b"Inl ", 64, b"Inlx", Bad(262)),
        (b"split ", b"Inl ", 64, b"In", Bad(262)),
        (b"split ", b"Inl ", 63, b"In", Bad(260)),
        (b"split ", b"Inl ", 64, b"(]", TooDeep(262)),
        (b"split ", b"Inl ", 64, b"NInl", Bad(263)),
        (b"use ", b"a", 32, b"", Read),
        (b"use ", b"a", 33, b"", Bad(36)),
        (b"use \"", b"a", 32, b"\"", Read),
        (b"use \"", b"a", 33, b"\"", Bad(37)),
    ];
    for (front, part, times, back, wanted) in &long {
        let mut text = Vec::from_slice(rt.alloc(), front)?;
        for _ in 0..*times {
            text.extend_from_slice(part)?;
        }
        text.extend_from_slice(back)?;
        assert!(rt; reads(rt.alloc(), &text, *wanted)?, "{text:?}");
    }
    Ok(())
}
