//! A program with a `use` whose boxes become ready in another order than they fire, event by event, and by
//! the plain evaluator.

ghost use Rattle.std.specs.Prelude.{length, IfSome};
ghost use Rattle.two_d.specs.Texts.{IsPlaceIn};
ghost use Rattle.fire_core.specs.Cores.{IsCoreOf};

use crate::{Core, Event, mean};
use codex_values::{Shape, ValueStore};
use std::alloc::Global;
use std::test::Fail;
use two_d::{
    BoxRow, Command, Exp, Module, Name, Origin, Outcome, Program, Side, TrailStore, good_program,
};

/// The module `pass`, which sends to its exit what comes from the west.
fn pass(alloc: Global) -> Result<Module, Fail> {
    let name = Name::read(alloc, b"pass")?.ok_or("a name")?;
    let row = BoxRow {
        command: Command::Send(vec![in alloc; (Exp::W, Side::E)]?),
        n: None,
        w: Some(Origin::West),
    };
    Ok(Module {
        name,
        north: false,
        west: true,
        boxes: vec![in alloc; row]?,
        exits: vec![in alloc; Some(Origin::East(0))]?,
    })
}

/// A box that sends something to its east side.
fn sends(alloc: Global, exp: Exp, n: Option<Origin>, w: Option<Origin>) -> Result<BoxRow, Fail> {
    Ok(BoxRow {
        command: Command::Send(vec![in alloc; (exp, Side::E)]?),
        n,
        w,
    })
}

/// The module `main`: box 2 sends `()` to box 0, and that to box 1, a use of `pass`. Box 3 stands alone.
fn main_of_pass(alloc: Global) -> Result<Module, Fail> {
    let name = Name::read(alloc, b"main")?.ok_or("a name")?;
    let used = Name::read(alloc, b"pass")?.ok_or("a name")?;
    let first = sends(alloc, Exp::W, None, Some(Origin::East(2)))?;
    let second = BoxRow {
        command: Command::Call(used),
        n: None,
        w: Some(Origin::East(0)),
    };
    let third = sends(alloc, Exp::Unit, None, None)?;
    let fourth = sends(alloc, Exp::Unit, None, None)?;
    Ok(Module {
        name,
        north: false,
        west: false,
        boxes: vec![in alloc; first, second, third, fourth]?,
        exits: vec![in alloc; Some(Origin::East(1))]?,
    })
}

/// The program of these two modules.
fn program_of(alloc: Global, pass: Module, main: Module) -> Result<Program, Fail> {
    if !pass.sound() {
        return Err("a sound module".into());
    }
    if !main.sound() {
        return Err("a sound module".into());
    }
    let modules = vec![in alloc; pass, main]?;
    Ok(good_program(alloc, modules)?)
}

/// Whether the ready events that are kept are just these.
fn are_kept(core: &Core, program: &Program, events: &[Event]) -> bool
    requires { IsCoreOf program.now core.now }
{
    if events.len() != core.ready_len(program) {
        return false;
    }
    for k in 0..events.len() {
        if events[k] != core.ready_at(program, k) {
            return false;
        }
    }
    true
}

/// Makes the ready event at a place, which has to be this one. What is kept has to be what is looked for.
fn makes(
    alloc: Global,
    core: &mut Core,
    program: &Program,
    k: usize,
    event: Event,
) -> Result<(), Fail>
    requires { IsCoreOf program.now core.old }
    ensures { IsCoreOf program.now core.new }
{
    let ready = core.ready(alloc, program)?;
    if !are_kept(core, program, &ready) {
        return Err("the ready events".into());
    }
    if core.instances() > 9 {
        return Err("few instances".into());
    }
    if core.ready_len(program) <= k {
        return Err("a ready event".into());
    }
    let next = core.ready_at(program, k);
    if next != event {
        return Err("the ready event".into());
    }
    core.step(program, next)?;
    Ok(())
}

/// Whether the outcome is `()`.
fn is_unit(values: &ValueStore, trails: &TrailStore, outcome: Option<Outcome>) -> bool
    requires { IfSome outcome (IsPlaceIn (length values.now) (length trails.now)) }
{
    match outcome {
        Some(Outcome::Value(at)) => matches!(values.shape(at), Shape::Unit),
        _ => false,
    }
}

/// Makes these events, each of which has to be the ready one at its place.
fn make_all(
    alloc: Global,
    core: &mut Core,
    program: &Program,
    events: &[(usize, Event)],
) -> Result<(), Fail>
    requires { IsCoreOf program.now core.old }
    ensures { IsCoreOf program.now core.new }
{
    for (k, event) in events {
        makes(alloc, core, program, *k, *event)?;
    }
    Ok(())
}

/// Whether the events of two instances come to `()`.
fn comes_to_unit(alloc: Global, program: &Program) -> Result<bool, Fail> {
    let mut core = Core::start(alloc, program)?;
    let events = [
        (0, Event::Fire(0, 2)),
        (0, Event::Fire(0, 0)),
        (0, Event::Fire(0, 1)),
        (1, Event::Fire(1, 0)),
        (1, Event::End(1)),
        (0, Event::Fire(0, 3)),
        (0, Event::End(0)),
    ];
    make_all(alloc, &mut core, program, &events)?;
    let is_over = core.ready_len(program) == 0 && core.instances() == 2;
    Ok(is_over && is_unit(core.values(), core.trails(), core.outcome()))
}

/// Whether the plain evaluator gives `()`, by five firings of two instances.
fn means_unit(alloc: Global, program: &Program) -> Result<bool, Fail> {
    let Some(meant) = mean(alloc, program, 2)? else {
        return Ok(false);
    };
    let is_counted = meant.firings == 5 && meant.instances == 2;
    Ok(is_counted && is_unit(&meant.values, &meant.trails, Some(meant.outcome)))
}

#[test]
fn events_and_meaning_agree(rt: HostRuntime) -> Result<(), Fail> {
    let alloc = rt.alloc();
    let program = program_of(alloc, pass(alloc)?, main_of_pass(alloc)?)?;
    assert!(rt; comes_to_unit(alloc, &program)?);
    assert!(rt; means_unit(alloc, &program)?);
    assert!(rt; mean(alloc, &program, 1)?.is_none());
    Ok(())
}
