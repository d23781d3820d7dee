ghost use Rattle.std.specs.Prelude.{◌≡◌, ◌↔◌, IsTrue, [], ◌∷◌};
ghost use Rattle.two_d.specs.Wires.{line, next, IsStraight, IsTurn, IsTaker, IsEnd};
ghost use Rattle.wire_trace.specs.inner.Positions.{HasNeighbours, direction_of, axis_in, position_of};
ghost use Rattle.wire_trace.specs.inner.Sheets.{drawing_in, IsSheet, AreOwnersOf};
ghost use Rattle.wire_trace.specs.inner.Ways.{AreOthers, TurnsOrStands, LeavesOrStands};

use crate::ends::end_at;
use crate::owners::Owners;
use crate::position::{Axis, Direction, Position};
use crate::sheet::Sheet;

/// Whether a wire can come to a position.
pub fn is_taker(sheet: &Sheet<'_>, owners: &Owners, position: Position) -> bool
    requires sheet { IsSheet sheet.now }
    requires owners { AreOwnersOf (drawing_in sheet.now) owners.now }
    ensures { IsTrue result ↔ IsTaker (drawing_in sheet.now) (position_of position) }
{
    is_straight(sheet, position) || is_turn(sheet, position) || is_end(sheet, owners, position)
}

/// Whether a wire that comes to a position ends there.
pub fn is_end(sheet: &Sheet<'_>, owners: &Owners, position: Position) -> bool
    requires sheet { IsSheet sheet.now }
    requires owners { AreOwnersOf (drawing_in sheet.now) owners.now }
    ensures { IsTrue result ↔ IsEnd (drawing_in sheet.now) (position_of position) }
{
    end_at(sheet, owners, position).is_some()
}

/// Whether a wire goes straight over a cell.
fn is_straight(sheet: &Sheet<'_>, position: Position) -> bool
    ensures { IsTrue result ↔ IsStraight (drawing_in sheet.now) (position_of position) }
{
    sheet.holds(line(position.axis()), position.place) || sheet.holds(b'#', position.place)
}

/// The byte over which a wire goes straight.
fn line(axis: Axis) -> u8
    ensures { result ≡ line (axis_in axis) }
{
    match axis {
        Axis::Horizontal => b'-',
        Axis::Vertical => b'|',
    }
}

/// Whether a wire turns at a cell.
pub fn is_turn(sheet: &Sheet<'_>, position: Position) -> bool
    ensures { IsTrue result ↔ IsTurn (drawing_in sheet.now) (position_of position) }
{
    sheet.holds(b'+', position.place)
}

/// In which direction a wire leaves a position at which it doesn't end.
pub fn way_from(sheet: &Sheet<'_>, owners: &Owners, here: Position) -> Option<Direction>
    requires sheet { IsSheet sheet.now }
    requires owners { AreOwnersOf (drawing_in sheet.now) owners.now }
    requires place { HasNeighbours here.place }
    requires no_end { IsEnd (drawing_in sheet.now) (position_of here) → ⊥ }
    ensures { LeavesOrStands (drawing_in sheet.now) (position_of here) result }
{
    if !is_turn(sheet, here) {
        return Some(here.to);
    }
    match here.axis() {
        Axis::Horizontal => one_of(sheet, owners, here, Direction::North, Direction::South),
        Axis::Vertical => one_of(sheet, owners, here, Direction::West, Direction::East),
    }
}

/// The one of the two directions of the other axis in which a wire can turn.
fn one_of(
    sheet: &Sheet<'_>,
    owners: &Owners,
    here: Position,
    first: Direction,
    second: Direction,
) -> Option<Direction>
    requires sheet { IsSheet sheet.now }
    requires owners { AreOwnersOf (drawing_in sheet.now) owners.now }
    requires place { HasNeighbours here.place }
    requires others { AreOthers (position_of here) (direction_of first) (direction_of second) }
    ensures { TurnsOrStands (drawing_in sheet.now) (position_of here) result }
{
    let may_first = is_taker(sheet, owners, here.next(first));
    let may_second = is_taker(sheet, owners, here.next(second));
    if may_first {
        if may_second { None } else { Some(first) }
    } else if may_second {
        Some(second)
    } else {
        None
    }
}
