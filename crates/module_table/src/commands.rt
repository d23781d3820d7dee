//! The commands of a module's boxes.

ghost use Rattle.std.specs.Prelude.{◌≡◌, ◌+◌, ◌-◌, ◌*◌, ◌<◌, All};
ghost use Rattle.grid_reader.specs.Boxes.{box_rect, box_rects, HasTextOf};
ghost use Rattle.two_d.specs.Boxes as boxes;
ghost use Rattle.two_d.specs.Cells.{Grid};
ghost use Rattle.two_d.specs.Program.{CommandOf};
ghost use Rattle.two_d.specs.Reading.{each};
ghost use Rattle.two_d.specs.Trees.{form_of};
ghost use Rattle.module_table.specs.Drawn.{Tells};
ghost use Rattle.module_table.specs.inner.Drawings.{AreBare, IsRoomy, rect_between};

use crate::fault::CheckFault;
use box_parse::{BoxFault, parse};
use grid_reader::BoxFrame;
use std::alloc::Global;
use two_d::{BoxRow, Command};
use umix_base::Place;

/// The boxes with their commands, and no wires yet; or the first fault in a command.
pub fn rows_of(alloc: Global, boxes: &Vec<BoxFrame>) -> Result<Vec<BoxRow>, CheckFault>
    requires { All IsRoomy boxes.now.items }
    ensures { (grid : Grid) → All (HasTextOf grid) boxes.now.items
        → Tells (λ rows. AreBare rows.items) result (each (CommandOf grid) (box_rects boxes.now)) }
{
    let mut rows = Vec::new(alloc);
    'boxes: for number in 0..boxes.len() {
        let command = command_in(alloc, &boxes[number])?;
        rows.push(BoxRow {
            command,
            n: None,
            w: None,
        })?;
    }
    Ok(rows)
}

/// The command of a box, or its fault at a place of the box.
fn command_in(alloc: Global, bx: &BoxFrame) -> Result<Command, CheckFault>
    requires { IsRoomy bx.now }
    ensures { (grid : Grid) → HasTextOf grid bx.now
        → Tells (λ command form. form_of command ≡ form) result (CommandOf grid (box_rect bx.now)) }
{
    let corner = Place {
        row: bx.top,
        col: bx.left,
    };
    let end = Place {
        row: bx.bottom,
        col: bx.right,
    };
    match parse(alloc, &bx.text) {
        Ok(command) => Ok(command),
        Err(BoxFault::Bad(at)) => Err(CheckFault::at(10, place_in(corner, end, at))),
        Err(BoxFault::TooDeep(at)) => Err(CheckFault::at(24, place_in(corner, end, at))),
        Err(BoxFault::Memory) => Err(CheckFault::Memory),
    }
}

/// The place of a byte of the text of a box with these opposite corners.
fn place_in(corner: Place, end: Place, at: usize) -> Place
    requires wide { corner.col + 1 < end.col }
    requires high { corner.row + 1 < end.row }
    requires within { at < (end.row - corner.row - 1) * (end.col - corner.col) }
    ensures { result ≡ boxes.place_in (rect_between corner end) at }
{
    let rows = (end.row - corner.row - 1) as usize;
    let width = (end.col - corner.col) as usize;
    prove!(at / width < rows);
    Place {
        row: corner.row + 1 + (at / width) as u32,
        col: corner.col + 1 + (at % width) as u32,
    }
}
