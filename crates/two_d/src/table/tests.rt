//! Programs of one module, made by hand.

use super::*;
use crate::{Name, Origin};
use std::test::Fail;

/// The module `main` without exits, whose boxes split what comes to their west sides from these origins.
fn module_of_splits(alloc: Global, origins: &[Option<Origin>]) -> Option<Module> {
    let name = Name::read(alloc, b"main").ok()??;
    let mut boxes = Vec::new(alloc);
    for origin in origins {
        let command = Command::Split(Exp::Unit);
        let row = BoxRow {
            command,
            n: None,
            w: *origin,
        };
        boxes.push(row).ok()?;
    }
    Some(Module {
        name,
        north: false,
        west: false,
        boxes,
        exits: Vec::new(alloc),
    })
}

/// What is said of the module alone, if it is sound.
fn program_of_splits(
    alloc: Global,
    origins: &[Option<Origin>],
) -> Option<Result<Program, TableFault>> {
    let main = module_of_splits(alloc, origins)?;
    if !main.sound() {
        return None;
    }
    let mut modules = Vec::new(alloc);
    modules.push(main).ok()?;
    Some(good_program(alloc, modules))
}

#[test]
fn the_least_order_is_kept(rt: HostRuntime) -> Result<(), Fail> {
    let origins = [Some(Origin::East(3)), None, Some(Origin::South(0)), None];
    let program = program_of_splits(rt.alloc(), &origins).ok_or("not sound")??;
    assert_eq!(rt; program.modules().len(), 1);
    assert_eq!(rt; program.main(), 0);
    let name = Name::read(rt.alloc(), b"main")
        .ok()
        .flatten()
        .ok_or("no name")?;
    assert_eq!(rt; program.find(&name), Some(0));
    assert_eq!(rt; program.order(0).as_slice(), [1, 3, 0, 2].as_slice());
    Ok(())
}

#[test]
fn the_first_box_of_a_ring_is_told(rt: HostRuntime) -> Result<(), Fail> {
    let origins = [None, Some(Origin::East(2)), Some(Origin::South(1))];
    let found = program_of_splits(rt.alloc(), &origins).ok_or("not sound")?;
    assert!(rt; matches!(&found, Err(TableFault::Cycle(0, 1))));
    Ok(())
}

#[test]
fn a_module_with_two_wires_from_one_side_is_not_sound(rt: HostRuntime) {
    let origins = [None, Some(Origin::East(0)), Some(Origin::East(0))];
    assert!(rt; program_of_splits(rt.alloc(), &origins).is_none());
}
