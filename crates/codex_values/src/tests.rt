ghost use Rattle.std.specs.Prelude.{◌<◌, length};

use super::*;
use std::alloc::Global;
use std::test::Fail;
use umix_base::{Failed, Sink};

/// Keeps what was written, and tells nothing.
#[derive(Drop)]
struct Kept {
    bytes: Vec<u8>,
    faults: u64,
}

impl Sink for Kept {
    ghost use Rattle.std.specs.Prelude.{None};

    ghost written = { λ _. None };

    ghost faults = { λ kept. kept.faults };

    fn put(&mut self, piece: &[u8]) -> Result<(), Failed> {
        if self.bytes.extend_from_slice(piece).is_ok() {
            return Ok(());
        }
        self.faults = self.faults.saturating_add(1);
        Err(Failed)
    }
}

fn printed(alloc: Global, store: &ValueStore, at: usize) -> Result<Vec<u8>, PrintFault>
    requires { at < length store.now }
{
    let mut sink = Kept {
        bytes: Vec::new(alloc),
        faults: 0,
    };
    store.print(alloc, at, &mut sink)?;
    Ok(sink.bytes)
}

#[test]
fn a_value_is_built_printed_and_read(rt: HostRuntime) -> Result<(), Fail> {
    let alloc = rt.alloc();
    let mut store = ValueStore::new(alloc);
    let unit = store.add(Shape::Unit)?;
    let left = store.add(Shape::Inl(unit))?;
    let both = store.add(Shape::Pair(left, unit))?;
    assert_eq!(rt; [unit, left, both], [0, 1, 2]);
    assert_eq!(rt; store.len(), 3);
    assert_eq!(rt; store.shape(both), Shape::Pair(1, 0));
    assert_eq!(rt;
        printed(alloc, &store, both)?.as_slice(),
        b"(Inl (),())".as_slice()
    );

    let texts: [(&[u8], &[u8]); 3] = [
        (b"( Inl () , () )", b"(Inl (),())"),
        (b" ( ( Inr((Inl(),()))) ) ", b"Inr (Inl (),())"),
        (b"((),())", b"((),())"),
    ];
    for (text, want) in texts {
        let at = store.read_value(text)?;
        assert_eq!(rt; printed(alloc, &store, at)?.as_slice(), want);
    }
    let bad: [(&[u8], usize); 7] = [
        (b"Inl", 3),
        (b"(),", 2),
        (b"", 0),
        (b"(() ())", 4),
        (b"InlInr ()", 3),
        (b"Inl N", 4),
        (b"() ()", 3),
    ];
    for (text, longest) in bad {
        assert_eq!(rt; store.read_value(text), Err(ValueFault::Bad(longest)));
    }
    Ok(())
}

#[test]
fn equal_nodes_have_one_place(rt: HostRuntime) -> Result<(), Fail> {
    let mut store = ValueStore::new(rt.alloc());
    let unit = store.add(Shape::Unit)?;
    let left = store.add(Shape::Inl(unit))?;
    let again = store.add(Shape::Unit)?;
    assert!(rt; again < store.len());
    let other = store.add(Shape::Inl(again))?;
    assert_eq!(rt; [unit, left, again, other], [0, 1, 0, 1]);
    assert_eq!(rt; store.len(), 2);
    assert!(rt; unit < 2 && left < 2);
    assert!(rt; store.same(left, left));
    assert!(rt; !store.same(unit, left));
    Ok(())
}

#[test]
fn pieces_are_written_in_order(rt: HostRuntime) -> Result<(), Fail> {
    let mut sink = Kept {
        bytes: Vec::new(rt.alloc()),
        faults: 0,
    };
    assert!(rt; put_all(&mut sink, &[b"Inl ", b"()", b"\n"]).is_ok());
    assert_eq!(rt; sink.bytes.as_slice(), b"Inl ()\n".as_slice());
    Ok(())
}

#[test]
fn a_million_levels_are_printed_and_read(rt: HostRuntime) -> Result<(), Fail> {
    let alloc = rt.alloc();
    let mut store = ValueStore::new(alloc);
    let mut top = store.add(Shape::Unit)?;
    for _ in 0..1_000_000 {
        assert!(rt; top < store.len());
        top = store.add(Shape::Inl(top))?;
    }
    assert!(rt; top < store.len());
    let text = printed(alloc, &store, top)?;
    assert_eq!(rt; text.len(), 4_000_002);
    assert_eq!(rt; store.read_value(&text)?, top);
    Ok(())
}
