ghost use Rattle.std.specs.Prelude.{◌≡◌, ◌↔◌, ◌<◌, ◌+◌, ◌^◌, IsTrue};
ghost use Rattle.two_d.specs.Clean.{ports_at};
ghost use Rattle.two_d.specs.Reading.{Gives};
ghost use Rattle.grid_reader.specs.Boxes.{box_rect, Fits};
ghost use Rattle.wire_trace.specs.Answers.{wire_fault_of};
ghost use Rattle.wire_trace.specs.inner.Sheets.{drawing_in, IsSheet};
ghost use Rattle.wire_trace.specs.inner.PortsAnswer.{PortsAnswer};
ghost use Rattle.wire_trace.specs.inner.Sides.{IsPort, side_cell, span, FindsSecond};

use crate::fault::WireFault;
use crate::sheet::Sheet;
use grid_reader::BoxFrame;
use umix_base::Place;

/// A side of a box.
#[derive(Clone, Copy, Debug)]
pub enum Side {
    North,
    West,
    East,
    South,
}

/// Refuses the second port of a side, box by box.
pub fn one_port_a_side(sheet: &Sheet<'_>) -> Result<(), WireFault>
    requires { IsSheet sheet.now }
    ensures { PortsAnswer (drawing_in sheet.now) result }
{
    'boxes: for number in 0..sheet.boxes.len() {
        one_port_each(sheet, &sheet.boxes[number])?;
    }
    Ok(())
}

/// Refuses the second port of a side of one box.
fn one_port_each(sheet: &Sheet<'_>, figure: &BoxFrame) -> Result<(), WireFault>
    requires sheet { IsSheet sheet.now }
    requires figure { Fits (drawing_in sheet.now).frame (box_rect figure.now) }
    ensures { Gives (λ _. tt) wire_fault_of result (ports_at (drawing_in sheet.now) (box_rect figure.now)) }
{
    if let Some(place) = second_port(sheet, figure, Side::North) {
        return Err(WireFault::TwoPorts(place));
    }
    if let Some(place) = second_port(sheet, figure, Side::West) {
        return Err(WireFault::TwoPorts(place));
    }
    if let Some(place) = second_port(sheet, figure, Side::East) {
        return Err(WireFault::TwoPorts(place));
    }
    if let Some(place) = second_port(sheet, figure, Side::South) {
        return Err(WireFault::TwoPorts(place));
    }
    Ok(())
}

/// The second port of a side, in reading order.
fn second_port(sheet: &Sheet<'_>, figure: &BoxFrame, side: Side) -> Option<Place>
    requires sheet { IsSheet sheet.now }
    requires figure { Fits (drawing_in sheet.now).frame (box_rect figure.now) }
    ensures { FindsSecond (IsPort (drawing_in sheet.now) (box_rect figure.now) side) result }
{
    let mut has_one = false;
    'cells: for step in 1..length_of(figure, side) {
        let place = beside(figure, side, step);
        if is_port(sheet, figure, side, place) {
            if has_one {
                return Some(place);
            }
            has_one = true;
        }
    }
    None
}

/// Whether a cell is a port of a side.
fn is_port(sheet: &Sheet<'_>, figure: &BoxFrame, side: Side, place: Place) -> bool
    requires sheet { IsSheet sheet.now }
    requires figure { Fits (drawing_in sheet.now).frame (box_rect figure.now) }
    requires row { place.row + 1 < 2 ^ 32 }
    requires col { place.col + 1 < 2 ^ 32 }
    ensures { IsTrue result ↔ IsPort (drawing_in sheet.now) (box_rect figure.now) side place }
{
    match side {
        Side::North => sheet.is_north_port(figure, place),
        Side::West => sheet.is_west_port(figure, place),
        Side::East => sheet.is_east_port(figure, place),
        Side::South => sheet.is_south_port(figure, place),
    }
}

/// How far apart the corners of a side are.
fn length_of(figure: &BoxFrame, side: Side) -> u32
    requires wide { figure.now.left < figure.now.right }
    requires high { figure.now.top < figure.now.bottom }
    ensures { result ≡ span (box_rect figure.now) side }
{
    match side {
        Side::North | Side::South => figure.right - figure.left,
        Side::West | Side::East => figure.bottom - figure.top,
    }
}

/// The cell beside a side, some steps behind that beside its first corner.
fn beside(figure: &BoxFrame, side: Side, step: u32) -> Place
    requires top { 0 < figure.now.top }
    requires left { 0 < figure.now.left }
    requires bottom { figure.now.bottom + 2 < 2 ^ 32 }
    requires right { figure.now.right + 2 < 2 ^ 32 }
    requires wide { figure.now.left < figure.now.right }
    requires high { figure.now.top < figure.now.bottom }
    requires step { step < span (box_rect figure.now) side }
    ensures cell { result ≡ side_cell (box_rect figure.now) side step }
    ensures row { result.row + 1 < 2 ^ 32 }
    ensures col { result.col + 1 < 2 ^ 32 }
{
    match side {
        Side::North => Place {
            row: figure.top - 1,
            col: figure.left + step,
        },
        Side::West => Place {
            row: figure.top + step,
            col: figure.left - 1,
        },
        Side::East => Place {
            row: figure.top + step,
            col: figure.right + 1,
        },
        Side::South => Place {
            row: figure.bottom + 1,
            col: figure.left + step,
        },
    }
}
