//! Modules of boxes that split what comes to their west and north sides.

use super::ring_of;
use std::alloc::Global;
use std::test::Fail;
use two_d::{BoxRow, Command, Exp, Module, Name, Origin};

/// From where the wires to the north and to the west side of a box come.
type Wires = (Option<Origin>, Option<Origin>);

/// The module `main` whose boxes have these wires, if there is memory.
fn module_of(alloc: Global, wires: &[Wires]) -> Option<Module> {
    let name = Name::read(alloc, b"main").ok()??;
    let mut boxes = Vec::new(alloc);
    for (n, w) in wires {
        let command = Command::Split(Exp::Unit);
        boxes
            .push(BoxRow {
                command,
                n: *n,
                w: *w,
            })
            .ok()?;
    }
    Some(Module {
        name,
        north: false,
        west: false,
        boxes,
        exits: Vec::new(alloc),
    })
}

/// The ring of a box, if there is memory and the module is sound and has the box.
fn ring(alloc: Global, wires: &[Wires], bx: usize) -> Option<Option<Vec<usize>>> {
    let module = module_of(alloc, wires)?;
    if !module.sound() || bx >= module.boxes.len() {
        return None;
    }
    ring_of(alloc, &module, bx).ok()
}

#[test]
fn boxes_that_wait_for_each_other(rt: HostRuntime) -> Result<(), Fail> {
    let wires = [
        (None, None),
        (None, Some(Origin::East(3))),
        (Some(Origin::South(0)), Some(Origin::South(1))),
        (Some(Origin::East(2)), None),
    ];
    assert_eq!(rt; ring(rt.alloc(), &wires, 0), Some(None));
    let first = ring(rt.alloc(), &wires, 1).flatten().ok_or("no ring")?;
    assert_eq!(rt; first.as_slice(), [3, 2].as_slice());
    let second = ring(rt.alloc(), &wires, 2).flatten().ok_or("no ring")?;
    assert_eq!(rt; second.as_slice(), [1, 3].as_slice());
    Ok(())
}

#[test]
fn a_box_that_waits_for_itself_alone(rt: HostRuntime) -> Result<(), Fail> {
    let wires = [(Some(Origin::East(0)), None)];
    let alone = ring(rt.alloc(), &wires, 0).flatten().ok_or("no ring")?;
    assert_eq!(rt; alone.len(), 0);
    Ok(())
}
