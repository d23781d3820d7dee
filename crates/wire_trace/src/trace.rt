ghost use Rattle.std.specs.Prelude.{◌≡◌, ◌<◌, List};
ghost use Rattle.two_d.specs.Places.{Covers};
ghost use Rattle.two_d.specs.Wires.{IsEnd, StartsAt, Trace};
ghost use Rattle.wire_trace.specs.inner.Areas.{AreMarks, IsAreaOf, unmarked};
ghost use Rattle.wire_trace.specs.inner.Positions.{position_of};
ghost use Rattle.wire_trace.specs.inner.Sheets.{drawing_in, IsSheet, AreOwnersOf};
ghost use Rattle.wire_trace.specs.inner.Traces.{AreOccupied, TraceAnswers};
ghost use Rattle.wire_trace.specs.inner.Ways.{IsOccupied, OccupiesAt, StepAnswers};

use crate::ends::end_at;
use crate::fault::WireFault;
use crate::marks::Marks;
use crate::owners::Owners;
use crate::position::{Axis, Position};
use crate::sheet::Sheet;
use crate::starts::Start;
use crate::takers::{is_taker, is_turn, way_from};
use two_d::To;

/// Follows a wire from its start to its end, or to its first fault, and occupies its cells.
pub fn trace(
    sheet: &Sheet<'_>,
    owners: &Owners,
    marks: &mut Marks,
    start: &Start,
) -> Result<To, WireFault>
    requires sheet { IsSheet sheet.now }
    requires owners { AreOwnersOf (drawing_in sheet.now) owners.now }
    requires marks { AreMarks marks.old.area marks.old }
    requires area { IsAreaOf (drawing_in sheet.now).frame marks.old.area }
    requires start { StartsAt (drawing_in sheet.now) (position_of start.now.at) start.now.from }
    ensures marks { AreMarks marks.old.area marks.new }
    ensures answers { (earlier : List Trace) → AreOccupied (drawing_in sheet.now) marks.old earlier
        → TraceAnswers (drawing_in sheet.now) earlier (position_of start.now.at) result marks.new }
{
    let mut here = start.at;
    occupy(sheet, marks, here);
    'cells: loop {
        if let Some(end) = end_at(sheet, owners, here) {
            return Ok(end);
        }
        here = step(sheet, owners, marks, here)?;
        occupy(sheet, marks, here);
    }
}

/// The next position of a wire, or why it can't go on.
fn step(
    sheet: &Sheet<'_>,
    owners: &Owners,
    marks: &Marks,
    here: Position,
) -> Result<Position, WireFault>
    requires sheet { IsSheet sheet.now }
    requires owners { AreOwnersOf (drawing_in sheet.now) owners.now }
    requires marks { AreMarks marks.now.area marks.now }
    requires area { IsAreaOf (drawing_in sheet.now).frame marks.now.area }
    requires place { Covers (drawing_in sheet.now).frame here.place }
    requires no_end { IsEnd (drawing_in sheet.now) (position_of here) → ⊥ }
    ensures { StepAnswers (drawing_in sheet.now) marks.now (position_of here) result }
{
    let Some(to) = way_from(sheet, owners, here) else {
        return Err(WireFault::BadTurn(here.place));
    };
    let next = here.next(to);
    if !is_taker(sheet, owners, next) {
        return Err(WireFault::BrokenWire(next.place));
    }
    if marks.has(next.place, next.axis()) {
        return Err(WireFault::Merge(next.place));
    }
    Ok(next)
}

/// Occupies a cell on the axis on which a wire passes it, a turn on both.
fn occupy(sheet: &Sheet<'_>, marks: &mut Marks, position: Position)
    requires marks { AreMarks marks.old.area marks.old }
    requires area { IsAreaOf (drawing_in sheet.now).frame marks.old.area }
    requires place { Covers (drawing_in sheet.now).frame position.place }
    ensures marks { AreMarks marks.old.area marks.new }
    ensures occupies { OccupiesAt (drawing_in sheet.now) marks.old marks.new (position_of position) }
    ensures fewer { (IsOccupied marks.old (position_of position) → ⊥) → unmarked marks.new < unmarked marks.old }
{
    if is_turn(sheet, position) {
        marks.add(position.place, Axis::Horizontal);
        marks.add(position.place, Axis::Vertical);
    } else {
        marks.add(position.place, position.axis());
    }
}
