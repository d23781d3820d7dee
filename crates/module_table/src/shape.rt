//! A module from its commands and its wires.

ghost use Rattle.std.specs.Prelude.{Some, None, List, map, length, is_some, IfOk};
ghost use Rattle.two_d.specs.Programs.{box_of, module_of};
ghost use Rattle.two_d.specs.declared.module.Origin.{Origin};
ghost use Rattle.two_d.specs.declared.module.To.{To};
ghost use Rattle.two_d.specs.Trees.{Form};
ghost use Rattle.wire_trace.specs.Answers.{forms_of};
ghost use Rattle.module_table.specs.inner.Drawings.{AreBare, AreEndsApart, IsThere, IsBuilt, Connects};

use grid_reader::Frame;
use std::alloc::{AllocError, Global};
use two_d::{BoxRow, Module, Name, Origin, To};
use wire_trace::Wire;

/// The module of a frame with these boxes and wires.
pub fn module_from(
    alloc: Global,
    frame: &Frame,
    name: Name,
    rows: Vec<BoxRow>,
    wires: &Vec<Wire>,
) -> Result<Module, AllocError>
    requires bare { (commands : List Form) × AreBare rows.items commands }
    requires ends { AreEndsApart (length rows.items) (length frame.now.exits.items) (forms_of wires.now) }
    ensures { IfOk result (λ m.
        IsBuilt frame.now name (map box_of rows.items) (forms_of wires.now) (module_of m)) }
{
    let mut boxes = rows;
    let mut exits = Vec::new(alloc);
    exits.resize(frame.exits.len(), None)?;
    'wires: for number in 0..wires.len() {
        connect(&mut boxes, &mut exits, &wires[number]);
    }
    Ok(Module {
        name,
        north: frame.north.is_some(),
        west: frame.west.is_some(),
        boxes,
        exits,
    })
}

/// Writes the origin of a wire at its end.
fn connect(boxes: &mut Vec<BoxRow>, exits: &mut Vec<Option<Origin>>, wire: &Wire)
    requires { IsThere (length boxes.old.items) (length exits.old.items) wire.now.to }
    ensures { Connects wire.now.from wire.now.to (map box_of boxes.old.items) exits.old.items
        (map box_of boxes.new.items) exits.new.items }
{
    match wire.to {
        To::N(number) => boxes[number].n = Some(wire.from),
        To::W(number) => boxes[number].w = Some(wire.from),
        To::Exit(number) => exits[number] = Some(wire.from),
    }
}
