//! Plans of programs of one module.

ghost use Rattle.std.specs.Prelude.{◌≤◌, IfOk};
ghost use Rattle.two_d.specs.Programs.{module_of};
ghost use Rattle.two_d.specs.Weights.{part};

use crate::{Plan, PlanStep, plans};
use std::alloc::Global;
use std::test::Fail;
use two_d::{BoxRow, Command, Exp, Module, Name, Origin, Side, good_program};

/// The module `main`, whose only box sends `()` to the exit.
fn one_box(alloc: Global) -> Result<Module, Fail>
    ensures { IfOk result (λ owner. part (module_of owner) ≤ 262144) }
{
    let name = Name::read(alloc, b"main")?.ok_or("a name")?;
    let row = BoxRow {
        command: Command::Send(vec![in alloc; (Exp::Unit, Side::E)]?),
        n: None,
        w: None,
    };
    Ok(Module {
        name,
        north: false,
        west: false,
        boxes: vec![in alloc; row]?,
        exits: vec![in alloc; Some(Origin::East(0))]?,
    })
}

/// The module `main`, whose first box sends to the exit what it takes from the second.
fn two_boxes(alloc: Global) -> Result<Module, Fail>
    ensures { IfOk result (λ owner. part (module_of owner) ≤ 262144) }
{
    let name = Name::read(alloc, b"main")?.ok_or("a name")?;
    let first = BoxRow {
        command: Command::Send(vec![in alloc; (Exp::W, Side::E)]?),
        n: None,
        w: Some(Origin::East(1)),
    };
    let second = BoxRow {
        command: Command::Send(vec![in alloc; (Exp::Unit, Side::E)]?),
        n: None,
        w: None,
    };
    Ok(Module {
        name,
        north: false,
        west: false,
        boxes: vec![in alloc; first, second]?,
        exits: vec![in alloc; Some(Origin::East(0))]?,
    })
}

/// The plans of the program of this module alone.
fn plans_of(alloc: Global, main: Module) -> Result<Vec<Plan>, Fail>
    requires { part (module_of main) ≤ 262144 }
{
    if !main.sound() {
        return Err("a sound module".into());
    }
    let modules = vec![in alloc; main]?;
    let program = good_program(alloc, modules)?;
    Ok(plans(alloc, &program)?)
}

#[test]
fn a_box_and_an_exit_share_a_slot(rt: HostRuntime) -> Result<(), Fail> {
    let plans = plans_of(rt.alloc(), one_box(rt.alloc())?)?;
    assert_eq!(rt; plans.len(), 1);
    let step = PlanStep {
        bx: 0,
        n: None,
        w: None,
        s: None,
        e: Some(0),
    };
    assert_eq!(rt; plans[0].module, 0);
    assert_eq!(rt; plans[0].slots, 1);
    assert_eq!(rt; plans[0].steps.as_slice(), [step].as_slice());
    assert_eq!(rt; plans[0].exits.as_slice(), [Some(0)].as_slice());
    assert_eq!(rt; (plans[0].north, plans[0].west), (None, None));
    Ok(())
}

#[test]
fn a_box_waits_for_what_it_takes(rt: HostRuntime) -> Result<(), Fail> {
    let plans = plans_of(rt.alloc(), two_boxes(rt.alloc())?)?;
    assert_eq!(rt; plans.len(), 1);
    let second = PlanStep {
        bx: 1,
        n: None,
        w: None,
        s: None,
        e: Some(0),
    };
    let first = PlanStep {
        bx: 0,
        n: None,
        w: Some(0),
        s: None,
        e: Some(1),
    };
    assert_eq!(rt; plans[0].slots, 2);
    assert_eq!(rt; plans[0].steps.as_slice(), [second, first].as_slice());
    assert_eq!(rt; plans[0].exits.as_slice(), [Some(1)].as_slice());
    Ok(())
}
