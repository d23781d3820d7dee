ghost use Rattle.std.specs.Prelude.{◌≡◌, Some};
ghost use Rattle.two_d.specs.Wires.{east, south};
ghost use Rattle.wire_trace.specs.inner.Positions.{position_of};
ghost use Rattle.wire_trace.specs.inner.Sheets.{drawing_in, IsSheet, AreOwnersOf};
ghost use Rattle.wire_trace.specs.inner.Ends.{FindsEnd, FindsExit};

use crate::owners::Owners;
use crate::ports::{north_port, west_port};
use crate::position::{Direction, Position};
use crate::sheet::Sheet;
use two_d::To;
use umix_base::Place;

/// The end of a wire that comes to a position, if it ends there.
pub fn end_at(sheet: &Sheet<'_>, owners: &Owners, position: Position) -> Option<To>
    requires sheet { IsSheet sheet.now }
    requires owners { AreOwnersOf (drawing_in sheet.now) owners.now }
    ensures { FindsEnd (drawing_in sheet.now) (position_of position) result }
{
    match position.to {
        Direction::East => east_end(sheet, owners, position.place),
        Direction::South => south_end(sheet, owners, position.place),
        Direction::West | Direction::North => None,
    }
}

/// The end of a wire that comes to a cell southward.
fn south_end(sheet: &Sheet<'_>, owners: &Owners, place: Place) -> Option<To>
    requires sheet { IsSheet sheet.now }
    requires owners { AreOwnersOf (drawing_in sheet.now) owners.now }
    ensures { FindsEnd (drawing_in sheet.now) (record { place = place; to = south }) result }
{
    match north_port(sheet, owners, place) {
        Some(number) => Some(To::N(number)),
        None => None,
    }
}

/// The end of a wire that comes to a cell eastward.
fn east_end(sheet: &Sheet<'_>, owners: &Owners, place: Place) -> Option<To>
    requires sheet { IsSheet sheet.now }
    requires owners { AreOwnersOf (drawing_in sheet.now) owners.now }
    ensures { FindsEnd (drawing_in sheet.now) (record { place = place; to = east }) result }
{
    if let Some(number) = west_port(sheet, owners, place) {
        return Some(To::W(number));
    }
    match exit_number(sheet, place) {
        Some(number) => Some(To::Exit(number)),
        None => None,
    }
}

/// The number of the exit at a cell.
fn exit_number(sheet: &Sheet<'_>, place: Place) -> Option<usize>
    requires { IsSheet sheet.now }
    ensures { FindsExit (drawing_in sheet.now) place result }
{
    if place.col != sheet.frame.right {
        return None;
    }
    match sheet.frame.exits.binary_search(&place.row) {
        Ok(number) => Some(number),
        Err(_) => None,
    }
}
