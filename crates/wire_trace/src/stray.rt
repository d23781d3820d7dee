ghost use Rattle.std.specs.Prelude.{◌≡◌, ◌↔◌, ◌<◌, ◌+◌, ◌^◌, IsTrue, MatchOption};
ghost use Rattle.umix_base.specs.declared.place.Place as plain;
ghost use Rattle.two_d.specs.Places.{Within, IsFirstPlace};
ghost use Rattle.wire_trace.specs.inner.Areas.{AreMarks, IsAreaOf};
ghost use Rattle.wire_trace.specs.inner.Sheets.{drawing_in, IsSheet, AreOwnersOf};
ghost use Rattle.wire_trace.specs.inner.Strays.{IsLeft};

use crate::marks::Marks;
use crate::owners::Owners;
use crate::position::Axis;
use crate::sheet::Sheet;
use umix_base::Place;

/// The first interior cell that is no space, no cell of the name or of a box, and on no wire.
pub fn first_stray(sheet: &Sheet<'_>, owners: &Owners, marks: &Marks) -> Option<Place>
    requires sheet { IsSheet sheet.now }
    requires owners { AreOwnersOf (drawing_in sheet.now) owners.now }
    requires marks { AreMarks marks.now.area marks.now }
    requires area { IsAreaOf (drawing_in sheet.now).frame marks.now.area }
    ensures { MatchOption result ((p : plain.Place) → IsLeft (drawing_in sheet.now) owners.now marks.now p → ⊥)
        (IsFirstPlace (IsLeft (drawing_in sheet.now) owners.now marks.now)) }
{
    'rows: for row in sheet.frame.top + 1..sheet.frame.bottom {
        'columns: for col in sheet.frame.left + 1..sheet.frame.right {
            let place = Place { row, col };
            if is_stray(sheet, owners, marks, place) {
                return Some(place);
            }
        }
    }
    None
}

/// Whether an interior cell is no space, no cell of the name or of a box, and on no wire.
fn is_stray(sheet: &Sheet<'_>, owners: &Owners, marks: &Marks, place: Place) -> bool
    requires sheet { IsSheet sheet.now }
    requires owners { AreOwnersOf (drawing_in sheet.now) owners.now }
    requires marks { AreMarks marks.now.area marks.now }
    requires area { IsAreaOf (drawing_in sheet.now).frame marks.now.area }
    requires place { Within (drawing_in sheet.now).frame place }
    ensures { IsTrue result ↔ IsLeft (drawing_in sheet.now) owners.now marks.now place }
{
    sheet.grid.cell(place) != b' '
        && !sheet.is_name_cell(place)
        && owners.at(place).is_none()
        && !marks.has(place, Axis::Horizontal)
        && !marks.has(place, Axis::Vertical)
}
