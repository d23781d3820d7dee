ghost use Rattle.std.specs.Prelude.{[], Ok};
ghost use Rattle.two_d.specs.Boxes.{boxes_of};
ghost use Rattle.two_d.specs.Clean.{wires_of};
ghost use Rattle.two_d.specs.Frames.{one_entry_a_side};
ghost use Rattle.two_d.specs.Reading.{Gives};
ghost use Rattle.grid_reader.specs.Boxes.{box_rects};
ghost use Rattle.grid_reader.specs.Frames.{IsFrameOf, rect_of};
ghost use Rattle.wire_trace.specs.Answers.{HasName, drawing_of, wire_fault_of, forms_of};
ghost use Rattle.wire_trace.specs.inner.Areas.{AreMarks, IsAreaOf};
ghost use Rattle.wire_trace.specs.inner.Lists.{ListAnswers};
ghost use Rattle.wire_trace.specs.inner.Sheets.{drawing_in, IsSheet, AreOwnersOf};
ghost use Rattle.wire_trace.specs.inner.Starts.{positions_of, HaveOrigins};
ghost use Rattle.wire_trace.specs.inner.Strays.{StrayAnswers};
ghost use Rattle.wire_trace.specs.inner.Traces.{AreOccupied};

use crate::area::Area;
use crate::fault::WireFault;
use crate::marks::Marks;
use crate::owners::Owners;
use crate::sheet::Sheet;
use crate::sides::one_port_a_side;
use crate::starts::{Start, starts};
use crate::stray::first_stray;
use crate::trace::trace;
use grid_reader::{BoxFrame, Frame, Grid};
use std::alloc::Global;
use two_d::{Origin, To};
use umix_base::Place;

/// A wire: where it begins and where it ends.
#[derive(Debug, Drop)]
pub struct Wire {
    pub from: Origin,
    pub to: To,
}

/// The wires of a module in the order of their tracing, or the first fault (docs/GRID.md, "Wires").
/// Takes time linear in the cells of the frame.
pub fn wires(
    alloc: Global,
    grid: &Grid,
    frame: &Frame,
    name: usize,
    boxes: &Vec<BoxFrame>,
) -> Result<Vec<Wire>, WireFault>
    requires frame { IsFrameOf grid.now frame.now }
    requires entries { one_entry_a_side grid.now (rect_of frame.now) (Ok tt) }
    requires name { HasName grid.now (rect_of frame.now) name }
    requires boxes { boxes_of grid.now (rect_of frame.now) (Ok (box_rects boxes.now)) }
    ensures { let drawing = drawing_of grid.now frame.now name boxes.now in
        Gives forms_of wire_fault_of result (wires_of drawing) }
{
    // The grid reaches to the frame's corner, so the frame has few rows and columns.
    let corner = Place {
        row: frame.top,
        col: frame.right,
    };
    prove!(grid.cell(corner) == b',');
    let sheet = Sheet {
        grid,
        frame,
        name,
        boxes,
    };
    wires_on(alloc, &sheet)
}

/// The wires of a module as it is drawn.
fn wires_on(alloc: Global, sheet: &Sheet<'_>) -> Result<Vec<Wire>, WireFault>
    requires { IsSheet sheet.now }
    ensures { Gives forms_of wire_fault_of result (wires_of (drawing_in sheet.now)) }
{
    one_port_a_side(sheet)?;
    let area = Area::new(sheet.frame);
    let owners = Owners::new(alloc, area, sheet.boxes)?;
    let starts = starts(alloc, sheet, &owners)?;
    let mut marks = Marks::new(alloc, area)?;
    let wires = trace_all(alloc, sheet, &owners, &mut marks, &starts)?;
    no_stray(sheet, &owners, &marks)?;
    Ok(wires)
}

/// Follows the wires one after the other, and occupies their cells.
fn trace_all(
    alloc: Global,
    sheet: &Sheet<'_>,
    owners: &Owners,
    marks: &mut Marks,
    starts: &[Start],
) -> Result<Vec<Wire>, WireFault>
    requires sheet { IsSheet sheet.now }
    requires owners { AreOwnersOf (drawing_in sheet.now) owners.now }
    requires marks { AreMarks marks.old.area marks.old }
    requires area { IsAreaOf (drawing_in sheet.now).frame marks.old.area }
    requires none { AreOccupied (drawing_in sheet.now) marks.old [] }
    requires starts { HaveOrigins (drawing_in sheet.now) starts.now }
    ensures marks { AreMarks marks.old.area marks.new }
    ensures answers { let starts = positions_of starts.now in
        ListAnswers (drawing_in sheet.now) starts result marks.new }
{
    let mut wires = Vec::new(alloc);
    'starts: for start in starts {
        let to = trace(sheet, owners, marks, start)?;
        wires.push(Wire {
            from: start.from,
            to,
        })?;
    }
    Ok(wires)
}

/// Refuses the first stray cell.
fn no_stray(sheet: &Sheet<'_>, owners: &Owners, marks: &Marks) -> Result<(), WireFault>
    requires sheet { IsSheet sheet.now }
    requires owners { AreOwnersOf (drawing_in sheet.now) owners.now }
    requires marks { AreMarks marks.now.area marks.now }
    requires area { IsAreaOf (drawing_in sheet.now).frame marks.now.area }
    ensures { StrayAnswers (drawing_in sheet.now) marks.now result }
{
    match first_stray(sheet, owners, marks) {
        Some(place) => Err(WireFault::Stray(place)),
        None => Ok(()),
    }
}
