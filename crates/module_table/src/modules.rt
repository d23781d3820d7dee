//! The modules of a grid.

ghost use Rattle.std.specs.Prelude.{Ok, All};
ghost use Rattle.two_d.specs.Frames.{one_entry_a_side};
ghost use Rattle.two_d.specs.Program.{module_in};
ghost use Rattle.two_d.specs.Reading.{each};
ghost use Rattle.grid_reader.specs.Frames.{IsFrameOf, rect_of, rects_of};
ghost use Rattle.module_table.specs.Drawn.{Tells, AreModulesRead};
ghost use Rattle.module_table.specs.inner.Drawings.{IsModuleRead};

use crate::commands::rows_of;
use crate::corners::{Corners, corners_of};
use crate::fault::CheckFault;
use crate::shape::module_from;
use grid_reader::{Frame, Grid, boxes, name};
use std::alloc::Global;
use two_d::Module;
use wire_trace::wires;

/// The modules of a text in reading order, and where they are drawn.
#[derive(Drop)]
pub struct Modules {
    pub modules: Vec<Module>,
    /// The corners of each module, by its number.
    pub corners: Vec<Corners>,
}

/// The modules of a grid's frames, or the first fault in one.
pub(crate) fn modules_in(
    alloc: Global,
    grid: &Grid,
    frames: &Vec<Frame>,
) -> Result<Modules, CheckFault>
    requires shown { All (IsFrameOf grid.now) frames.now.items }
    requires entries { All (λ frame. one_entry_a_side grid.now (rect_of frame) (Ok tt)) frames.now.items }
    ensures { Tells AreModulesRead result (each (module_in grid.now) (rects_of frames.now)) }
{
    let mut modules = Vec::new(alloc);
    let mut corners = Vec::new(alloc);
    'frames: for number in 0..frames.len() {
        let (module, place) = module_at(alloc, grid, &frames[number])?;
        modules.push(module)?;
        corners.push(place)?;
    }
    Ok(Modules { modules, corners })
}

/// The module in a frame, and where it is drawn; or its first fault.
fn module_at(alloc: Global, grid: &Grid, frame: &Frame) -> Result<(Module, Corners), CheckFault>
    requires shown { IsFrameOf grid.now frame.now }
    requires entries { one_entry_a_side grid.now (rect_of frame.now) (Ok tt) }
    ensures { Tells IsModuleRead result (module_in grid.now (rect_of frame.now)) }
{
    let name = name(alloc, grid, frame)?;
    let boxes = boxes(alloc, grid, frame)?;
    let rows = rows_of(alloc, &boxes)?;
    let wires = wires(alloc, grid, frame, name.bytes().len(), &boxes)?;
    let module = module_from(alloc, frame, name, rows, &wires)?;
    let corners = corners_of(alloc, frame, &boxes)?;
    Ok((module, corners))
}
