ghost use Rattle.std.specs.Prelude.{◌≡◌, ◌+◌, ◌<◌, ◌^◌, ◌↔◌, IfSome, length};
ghost use Rattle.two_d.specs.Ports.{IsNPort, IsWPort, IsSPort, IsEPort};
ghost use Rattle.two_d.specs.Places as places;
ghost use Rattle.two_d.specs.Places.{Covers};
ghost use Rattle.wire_trace.specs.inner.Areas.{IsIn};
ghost use Rattle.wire_trace.specs.inner.Sheets.{drawing_in, IsSheet, AreOwnersOf, FindsBox};

use crate::owners::Owners;
use crate::sheet::Sheet;
use umix_base::Place;

/// The number of the box whose N port a cell is.
pub fn north_port(sheet: &Sheet<'_>, owners: &Owners, place: Place) -> Option<usize>
    requires sheet { IsSheet sheet.now }
    requires owners { AreOwnersOf (drawing_in sheet.now) owners.now }
    ensures { FindsBox (drawing_in sheet.now) (λ (b : places.Rect). IsNPort (drawing_in sheet.now) b place) result }
{
    if !sheet.holds(b'v', place) {
        return None;
    }
    let beside = Place {
        row: place.row + 1,
        col: place.col,
    };
    let Some(number) = owner(sheet, owners, beside) else {
        return None;
    };
    if !sheet.is_north_port(&sheet.boxes[number], place) {
        return None;
    }
    Some(number)
}

/// The number of the box whose W port a cell is.
pub fn west_port(sheet: &Sheet<'_>, owners: &Owners, place: Place) -> Option<usize>
    requires sheet { IsSheet sheet.now }
    requires owners { AreOwnersOf (drawing_in sheet.now) owners.now }
    ensures { FindsBox (drawing_in sheet.now) (λ (b : places.Rect). IsWPort (drawing_in sheet.now) b place) result }
{
    if !sheet.holds(b'>', place) {
        return None;
    }
    let beside = Place {
        row: place.row,
        col: place.col + 1,
    };
    let Some(number) = owner(sheet, owners, beside) else {
        return None;
    };
    if !sheet.is_west_port(&sheet.boxes[number], place) {
        return None;
    }
    Some(number)
}

/// The number of the box whose S port a cell is.
pub fn south_port(sheet: &Sheet<'_>, owners: &Owners, place: Place) -> Option<usize>
    requires sheet { IsSheet sheet.now }
    requires owners { AreOwnersOf (drawing_in sheet.now) owners.now }
    ensures { FindsBox (drawing_in sheet.now) (λ (b : places.Rect). IsSPort (drawing_in sheet.now) b place) result }
{
    if !sheet.holds(b'|', place) {
        return None;
    }
    let beside = Place {
        row: place.row - 1,
        col: place.col,
    };
    let Some(number) = owner(sheet, owners, beside) else {
        return None;
    };
    if !sheet.is_south_port(&sheet.boxes[number], place) {
        return None;
    }
    Some(number)
}

/// The number of the box whose E port a cell is.
pub fn east_port(sheet: &Sheet<'_>, owners: &Owners, place: Place) -> Option<usize>
    requires sheet { IsSheet sheet.now }
    requires owners { AreOwnersOf (drawing_in sheet.now) owners.now }
    ensures { FindsBox (drawing_in sheet.now) (λ (b : places.Rect). IsEPort (drawing_in sheet.now) b place) result }
{
    if !sheet.may_begin_east(place) {
        return None;
    }
    let beside = Place {
        row: place.row,
        col: place.col - 1,
    };
    let Some(number) = owner(sheet, owners, beside) else {
        return None;
    };
    if !sheet.is_east_port(&sheet.boxes[number], place) {
        return None;
    }
    Some(number)
}

/// The number of the box that has a cell.
fn owner(sheet: &Sheet<'_>, owners: &Owners, place: Place) -> Option<usize>
    requires owners { AreOwnersOf (drawing_in sheet.now) owners.now }
    requires place { IsIn owners.now.area place }
    ensures found { FindsBox (drawing_in sheet.now) (λ (b : places.Rect). Covers b place) result }
    ensures bound { IfSome result (λ i. i < length sheet.now.boxes.now) }
{
    owners.at(place)
}
