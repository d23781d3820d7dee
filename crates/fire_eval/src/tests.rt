//! A program in which two events are ready at once, in several orders.

use crate::{EvalFault, Picks, Report, eval};
use codex_values::Shape;
use std::alloc::Global;
use std::test::Fail;
use two_d::{BoxRow, Command, Exp, Module, Name, Origin, Outcome, Program, Side, good_program};

/// The module `unit`, whose only box sends `()` to its exit.
fn unit(alloc: Global) -> Result<Module, Fail> {
    let name = Name::read(alloc, b"unit")?.ok_or("a name")?;
    let row = BoxRow {
        command: Command::Send(vec![in alloc; (Exp::Unit, Side::E)]?),
        n: None,
        w: None,
    };
    Ok(Module {
        name,
        north: false,
        west: false,
        boxes: vec![in alloc; row]?,
        exits: vec![in alloc; Some(Origin::East(0))]?,
    })
}

/// A box that uses `unit`.
fn use_of_unit(alloc: Global) -> Result<BoxRow, Fail> {
    let name = Name::read(alloc, b"unit")?.ok_or("a name")?;
    Ok(BoxRow {
        command: Command::Call(name),
        n: None,
        w: None,
    })
}

/// The module `main`: two uses of `unit`, and a box that sends to the exit what comes of the second.
fn main_of_units(alloc: Global) -> Result<Module, Fail> {
    let name = Name::read(alloc, b"main")?.ok_or("a name")?;
    let last = BoxRow {
        command: Command::Send(vec![in alloc; (Exp::W, Side::E)]?),
        n: Some(Origin::East(0)),
        w: Some(Origin::East(1)),
    };
    let first = use_of_unit(alloc)?;
    let second = use_of_unit(alloc)?;
    Ok(Module {
        name,
        north: false,
        west: false,
        boxes: vec![in alloc; first, second, last]?,
        exits: vec![in alloc; Some(Origin::East(2))]?,
    })
}

/// The program of these two modules.
fn program_of(alloc: Global, unit: Module, main: Module) -> Result<Program, Fail> {
    if !unit.sound() {
        return Err("a sound module".into());
    }
    if !main.sound() {
        return Err("a sound module".into());
    }
    let modules = vec![in alloc; unit, main]?;
    Ok(good_program(alloc, modules)?)
}

/// Whether a report tells of the value `()`, of five firings and of three instances.
fn is_whole(report: &Report) -> bool {
    matches!(report.outcome, Some(Outcome::Value(0)))
        && report.firings == 5
        && report.instances == 3
        && report.events == 8
}

#[test]
fn each_order_comes_to_the_same(rt: HostRuntime) -> Result<(), Fail> {
    let alloc = rt.alloc();
    let program = program_of(alloc, unit(alloc)?, main_of_units(alloc)?)?;
    let first = eval(alloc, &program, &Picks::First, 8)?;
    let last = eval(alloc, &program, &Picks::Last, 8)?;
    let listed = eval(alloc, &program, &Picks::List(vec![in alloc; 7, 0, 3]?), 8)?;
    assert!(rt; is_whole(&first) && is_whole(&last) && is_whole(&listed));
    assert!(rt; first.log.as_slice() != last.log.as_slice());
    assert_eq!(rt; first.values.len(), 1);
    Ok(())
}

#[test]
fn one_event_too_few_gives_no_outcome(rt: HostRuntime) -> Result<(), Fail> {
    let alloc = rt.alloc();
    let program = program_of(alloc, unit(alloc)?, main_of_units(alloc)?)?;
    let report = eval(alloc, &program, &Picks::Last, 7)?;
    assert!(rt; report.outcome.is_none());
    assert_eq!(rt;
        (report.events, report.firings, report.instances),
        (7, 5, 3)
    );
    let none = eval(alloc, &program, &Picks::List(Vec::new(alloc)), 7);
    assert!(rt; matches!(none, Err(EvalFault::EmptyPicks)));
    Ok(())
}
