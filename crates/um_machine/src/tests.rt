use crate::{Machine, Stop, Turn};
use std::test::Fail;
use umix_base::{Limits, MemSink, MemSource};

const LIMITS: Limits = Limits {
    arrays: 4,
    words: 12,
};

#[test]
fn a_scroll_starts_and_halts(rt: HostRuntime) -> Result<(), Fail> {
    let alloc = rt.alloc();
    let one = Limits {
        arrays: 0,
        words: 1,
    };
    let full = Machine::new(alloc, vec![in alloc; 0, 0]?, one);
    assert!(rt; matches!(full, Err(Stop::WordsFull(2))));
    let words = vec![in alloc; 0xd000_0041, 0xa000_0000, 0x7000_0000]?;
    let mut machine = Machine::new(alloc, words, LIMITS)?;
    let mut input = MemSource::new(Vec::new(alloc), Vec::new(alloc));
    let mut out = MemSink::new(alloc, 1, Vec::new(alloc))?;
    for want in [Turn::Running, Turn::Running, Turn::Halted, Turn::Halted] {
        assert!(rt; machine.cycles() < 4);
        assert_eq!(rt; machine.cycle(&mut input, &mut out), Ok(want));
    }
    assert_eq!(rt; machine.cycles(), 3);
    assert_eq!(rt; out.bytes(), &b"A"[..]);
    Ok(())
}

// An array of 3 platters is allocated, its second becomes 65 and is written, the array is abandoned, and
// an Index of it fails.
#[test]
fn an_array_is_allocated_and_abandoned(rt: HostRuntime) -> Result<(), Fail> {
    let alloc = rt.alloc();
    let words = vec![in alloc;
        0xd200_0003,
        0x8000_0011,
        0xd600_0041,
        0xd800_0001,
        0x2000_00a3,
        0x1000_0154,
        0xa000_0005,
        0x9000_0002,
        0x1000_0154,
    ]?;
    let mut machine = Machine::new(alloc, words, LIMITS)?;
    let mut input = MemSource::new(Vec::new(alloc), Vec::new(alloc));
    let mut out = MemSink::new(alloc, 1, Vec::new(alloc))?;
    let stop = machine.run(&mut input, &mut out, 7);
    assert_eq!(rt; stop.name(), "Budget");
    assert_eq!(rt; (machine.live(), machine.word(1, 1)), ((1, 12), Some(65)));
    assert!(rt; machine.cycles() < 8);
    let stop = machine.run(&mut input, &mut out, 7);
    assert_eq!(rt; stop, Stop::IndexInactive);
    assert_eq!(rt; (machine.live(), machine.word(1, 1)), ((0, 9), None));
    assert_eq!(rt;
        (machine.cycles(), machine.finger(), machine.register(5)),
        (8, 8, 65)
    );
    assert_eq!(rt; out.bytes(), &b"A"[..]);
    Ok(())
}

// An Input whose source fails is a cycle that was not made: the next call makes it.
#[test]
fn a_failed_input_is_asked_again(rt: HostRuntime) -> Result<(), Fail> {
    let alloc = rt.alloc();
    let mut machine = Machine::new(alloc, vec![in alloc; 0xb000_0000]?, LIMITS)?;
    let mut input = MemSource::new(vec![in alloc; 0x41]?, vec![in alloc; 0]?);
    let mut out = MemSink::new(alloc, 0, Vec::new(alloc))?;
    for want in [Err(Stop::ReadFault), Ok(Turn::Running)] {
        assert!(rt; machine.cycles() < 2);
        assert_eq!(rt; machine.cycle(&mut input, &mut out), want);
    }
    assert_eq!(rt; (machine.cycles(), machine.register(0)), (1, 0x41));
    Ok(())
}

// an array is allocated and abandoned a million times: its identifier is handed out again
#[test]
fn a_million_arrays_one_after_another(rt: HostRuntime) -> Result<(), Fail> {
    let alloc = rt.alloc();
    let words = vec![in alloc; 0x8000_000a, 0x9000_0001, 0xc000_0003]?;
    let mut machine = Machine::new(alloc, words, LIMITS)?;
    let mut input = MemSource::new(Vec::new(alloc), Vec::new(alloc));
    let mut out = MemSink::new(alloc, 0, Vec::new(alloc))?;
    assert!(rt; machine.cycles() < 2);
    let stop = machine.run(&mut input, &mut out, 3_000_000);
    assert_eq!(rt; stop, Stop::Budget);
    assert_eq!(rt; (machine.register(1), machine.live()), (1, (0, 3)));
    Ok(())
}
