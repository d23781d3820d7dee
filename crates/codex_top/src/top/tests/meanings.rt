//! Programs of drawings by the calls of the evaluators, beside the commands.

use super::grids::{
    ADDITION, DEEP_CALLERS, ENDLESS, ID, ID_CROSSED, NO_RESULT, SMALLEST, STUCK_INSIDE, STUCK_LATE,
    STUCK_TWICE, TWO_CALLERS, TWO_RESULTS, USES_ID,
};
use super::loads::program_of;
use fire_core::{Event, mean};
use fire_eval::{EvalFault, Picks, eval};
use std::alloc::Global;
use std::test::Fail;
use two_d::{BoxRow, Command, Exp, Module, Name, Origin, Outcome, Program, Side, good_program};

/// Whether the plain evaluator and the events come to an outcome of one kind with the same counts,
/// or both to none.
fn is_agreed(alloc: Global, program: &Program) -> Result<bool, Fail> {
    let report = eval(alloc, program, &Picks::Last, 1_000)?;
    let Some(meant) = mean(alloc, program, 6)? else {
        return Ok(report.outcome.is_none());
    };
    let is_same = matches!(
        (report.outcome, meant.outcome),
        (Some(Outcome::Value(_)), Outcome::Value(_)) | (Some(Outcome::Stuck(_)), Outcome::Stuck(_))
    );
    Ok(is_same && (report.firings, report.instances) == (meant.firings, meant.instances))
}

#[test]
fn means_what_its_events_come_to(rt: HostRuntime) -> Result<(), Fail> {
    let alloc = rt.alloc();
    let grids: [&[&[&str]]; 12] = [
        &[SMALLEST],
        &[USES_ID, ID],
        &[USES_ID, ID_CROSSED],
        &[STUCK_INSIDE],
        &[STUCK_TWICE],
        &[STUCK_LATE],
        &[TWO_RESULTS],
        &[NO_RESULT],
        &[ADDITION],
        &[TWO_CALLERS],
        &[DEEP_CALLERS],
        &[ENDLESS],
    ];
    for grid in grids {
        assert!(rt; is_agreed(alloc, &program_of(alloc, grid)?)?);
    }
    Ok(())
}

/// The module `main`, whose only box sends `()` to its exit.
fn smallest(alloc: Global) -> Result<Module, Fail> {
    let name = Name::read(alloc, b"main")?.ok_or("a name")?;
    let row = BoxRow {
        command: Command::Send(vec![in alloc; (Exp::Unit, Side::E)]?),
        n: None,
        w: None,
    };
    Ok(Module {
        name,
        north: false,
        west: false,
        boxes: vec![in alloc; row]?,
        exits: vec![in alloc; Some(Origin::East(0))]?,
    })
}

#[test]
fn smallest_program_by_hand(rt: HostRuntime) -> Result<(), Fail> {
    let alloc = rt.alloc();
    let module = smallest(alloc)?;
    assert!(rt; module.sound());
    let made = good_program(alloc, vec![in alloc; module]?)?;
    let drawn = program_of(alloc, &[SMALLEST])?;
    let modules = format!(in alloc; "{:?}", made.modules())?;
    assert_eq!(rt; modules, format!(in alloc; "{:?}", drawn.modules())?);
    assert_eq!(rt; (made.main(), drawn.main()), (0, 0));
    assert_eq!(rt; made.order(0).as_slice(), drawn.order(0).as_slice());
    Ok(())
}

#[test]
fn smallest_program_by_budget(rt: HostRuntime) -> Result<(), Fail> {
    let alloc = rt.alloc();
    let program = program_of(alloc, &[SMALLEST])?;
    let none = eval(alloc, &program, &Picks::List(Vec::new(alloc)), 2);
    assert!(rt; matches!(none, Err(EvalFault::EmptyPicks)));
    let whole = eval(alloc, &program, &Picks::First, 2)?;
    assert!(rt; matches!(whole.outcome, Some(Outcome::Value(_))));
    assert_eq!(rt; (whole.events, whole.firings, whole.instances), (2, 1, 1));
    let begun = eval(alloc, &program, &Picks::First, 1)?;
    assert!(rt; begun.outcome.is_none());
    assert_eq!(rt; begun.log.as_slice(), [Event::Fire(0, 0)].as_slice());
    Ok(())
}
