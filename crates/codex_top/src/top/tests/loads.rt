//! The loads of compiled scrolls, cycle by cycle.

use super::grids::{ADDITION, ENDLESS, SUM, bytes_of_lines};
use lower_link::{Linked, compile, weight};
use module_table::check;
use std::alloc::Global;
use std::process::Abort;
use std::test::Fail;
use two_d::Program;
use um_machine::{Machine, Turn};
use um_word::{Op, decode};
use umix_base::{Limits, MemSink, MemSource, Memory};

const LIMITS: Limits = Limits {
    arrays: 16_777_216,
    words: 268_435_456,
};

/// A load of an array other than 0: the number of the block that array 0 is after it, and whether
/// the finger is at its first word.
type Load = (Option<usize>, bool);

/// A run made cycle by cycle: the machine after it, its loads and what it wrote.
#[derive(Drop)]
struct Course {
    machine: Machine,
    loads: Vec<Load>,
    out: MemSink,
}

pub(super) fn program_of(alloc: Global, grid: &[&[&str]]) -> Result<Program, Fail> {
    let bytes = bytes_of_lines(alloc, grid)?;
    match check(alloc, &bytes) {
        Ok(program) => Ok(program),
        Err(_) => Err(Fail::from(Memory)),
    }
}

// the next cycle loads an array other than 0
fn is_load(machine: &Machine) -> bool {
    let Some(word) = machine.word(0, machine.finger()) else {
        return false;
    };
    match decode(word) {
        Some(Op::Load(b, _)) => machine.register(b) != 0,
        _ => false,
    }
}

// array 0 is just these words
fn is_zero(machine: &Machine, words: &[u32]) -> bool {
    let mut at = 0u32;
    for word in words {
        if machine.word(0, at) != Some(*word) {
            return false;
        }
        at = at.saturating_add(1);
    }
    machine.word(0, at).is_none()
}

// the number of the block that array 0 is
fn block_in_zero(machine: &Machine, linked: &Linked) -> Option<usize> {
    for number in 0..linked.blocks.len() {
        let (place, length) = linked.blocks[number];
        let (from, length) = (place as usize, length as usize);
        let words = linked.words.get(from..from + length)?;
        if is_zero(machine, words) {
            return Some(number);
        }
    }
    None
}

// the run of a compiled scroll, for so many cycles or until it stops
fn watched<R: Abort + AllocGlobal>(rt: &R, linked: &Linked, cycles: u64) -> Result<Course, Fail> {
    let alloc = rt.alloc();
    let words = linked.words.as_slice().to_vec(alloc)?;
    let Ok(mut machine) = Machine::new(alloc, words, LIMITS) else {
        return Err(Fail::from(Memory));
    };
    let mut input = MemSource::new(Vec::new(alloc), Vec::new(alloc));
    let mut out = MemSink::new(alloc, 100, Vec::new(alloc))?;
    let mut loads = Vec::new(alloc);
    for _ in 0..cycles {
        assert!(rt; machine.cycles() < 1 << 40);
        let is_load = is_load(&machine);
        let turn = machine.cycle(&mut input, &mut out);
        if is_load {
            loads.push((block_in_zero(&machine, linked), machine.finger() == 0))?;
        }
        if turn != Ok(Turn::Running) {
            break;
        }
    }
    Ok(Course {
        machine,
        loads,
        out,
    })
}

// 2 + 3 in four instances, and the printer at the end. The counts are those of "Two scrolls,
// counted by hand" in docs/COMPILED.md.
#[test]
fn loads_of_an_addition(rt: HostRuntime) -> Result<(), Fail> {
    let program = program_of(rt.alloc(), &[ADDITION])?;
    assert_eq!(rt; weight(&program), 94);
    let linked = compile(rt.alloc(), &program)?;
    assert!(rt; linked.words.len() <= 7_584);
    assert_eq!(rt; linked.words.len(), 1_269);
    let course = watched(&rt, &linked, 36_765_696)?;
    let want = [
        (Some(0), true),
        (Some(1), true),
        (Some(1), true),
        (Some(1), true),
        (Some(1), false),
        (Some(1), false),
        (Some(0), false),
        (Some(2), true),
    ];
    assert_eq!(rt; course.loads.as_slice(), want.as_slice());
    assert_eq!(rt; course.out.bytes(), SUM.as_bytes());
    let (arrays, words) = course.machine.live();
    assert!(rt; arrays <= 5_240 && words <= 167_680);
    assert_eq!(rt; (arrays, words), (34, 2_100));
    assert_eq!(rt; course.machine.cycles(), 12_338);
    Ok(())
}

#[test]
fn loads_of_an_endless_program(rt: HostRuntime) -> Result<(), Fail> {
    let program = program_of(rt.alloc(), &[ENDLESS])?;
    assert!(rt; weight(&program) <= 262_144);
    let linked = compile(rt.alloc(), &program)?;
    let course = watched(&rt, &linked, 30_000)?;
    assert!(rt; course.loads.len() >= 10);
    for number in 0..course.loads.len() {
        let block = if number == 0 { 0 } else { 1 };
        assert_eq!(rt; course.loads[number], (Some(block), true));
    }
    assert_eq!(rt; course.out.bytes(), &b""[..]);
    Ok(())
}
