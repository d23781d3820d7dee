ghost use Rattle.std.specs.Prelude.{◌≡◌, ◌↔◌, ◌+◌, IsTrue, IfOk, OnOk, Some, ⊤};
ghost use Rattle.two_d.specs.Ports.{IsNorthEntry, IsWestEntry};
ghost use Rattle.wire_trace.specs.inner.Sheets.{drawing_in, IsSheet, AreOwnersOf};
ghost use Rattle.wire_trace.specs.inner.Starts.{FindsStart, HasStarts};
ghost use Rattle.two_d.specs.Places.{at, Before};
ghost use Rattle.umix_base.specs.declared.place.Place as plain;

use crate::owners::Owners;
use crate::ports::{east_port, south_port};
use crate::position::{Direction, Position};
use crate::sheet::Sheet;
use std::alloc::{AllocError, Global};
use two_d::Origin;
use umix_base::Place;

/// Where a wire begins: its first position, and its origin.
#[derive(Clone, Copy, Debug)]
pub struct Start {
    pub at: Position,
    pub from: Origin,
}

/// The starts of a module's wires, in reading order of their cells.
pub fn starts(alloc: Global, sheet: &Sheet<'_>, owners: &Owners) -> Result<Vec<Start>, AllocError>
    requires sheet { IsSheet sheet.now }
    requires owners { AreOwnersOf (drawing_in sheet.now) owners.now }
    ensures { IfOk result (λ starts. HasStarts (drawing_in sheet.now) (λ (_ : plain.Place). ⊤) starts.items) }
{
    let mut starts = Vec::new(alloc);
    'rows: for row in sheet.frame.top..sheet.frame.bottom {
        'columns: for col in sheet.frame.left..sheet.frame.right + 1 {
            add_start(sheet, owners, Place { row, col }, &mut starts)?;
        }
    }
    Ok(starts)
}

/// Adds the start at a cell, if a wire begins there.
fn add_start(
    sheet: &Sheet<'_>,
    owners: &Owners,
    place: Place,
    starts: &mut Vec<Start>,
) -> Result<(), AllocError>
    requires sheet { IsSheet sheet.now }
    requires owners { AreOwnersOf (drawing_in sheet.now) owners.now }
    requires starts { HasStarts (drawing_in sheet.now) (λ (q : plain.Place). Before q place) starts.old.items }
    ensures { OnOk result (HasStarts (drawing_in sheet.now)
        (λ (q : plain.Place). Before q (at place.row (place.col + 1))) starts.new.items) }
{
    if let Some(start) = start_at(sheet, owners, place) {
        starts.push(start)?;
    }
    Ok(())
}

/// The start of a wire at a cell, if one begins there.
pub fn start_at(sheet: &Sheet<'_>, owners: &Owners, place: Place) -> Option<Start>
    requires sheet { IsSheet sheet.now }
    requires owners { AreOwnersOf (drawing_in sheet.now) owners.now }
    ensures { FindsStart (drawing_in sheet.now) place result }
{
    if is_north_entry(sheet, place) {
        return Some(leaving(place, Direction::South, Origin::North));
    }
    if is_west_entry(sheet, place) {
        return Some(leaving(place, Direction::East, Origin::West));
    }
    if let Some(number) = south_port(sheet, owners, place) {
        return Some(leaving(place, Direction::South, Origin::South(number)));
    }
    if let Some(number) = east_port(sheet, owners, place) {
        return Some(leaving(place, Direction::East, Origin::East(number)));
    }
    None
}

/// A start at a cell.
fn leaving(place: Place, to: Direction, from: Origin) -> Start
    ensures place { result.at.place ≡ place }
    ensures to { result.at.to ≡ to }
    ensures from { result.from ≡ from }
{
    Start {
        at: Position { place, to },
        from,
    }
}

/// Whether a cell is the north entry.
fn is_north_entry(sheet: &Sheet<'_>, place: Place) -> bool
    requires { IsSheet sheet.now }
    ensures { IsTrue result ↔ IsNorthEntry (drawing_in sheet.now) place }
{
    place.row == sheet.frame.top && is_number(sheet.frame.north, place.col)
}

/// Whether a cell is the west entry.
fn is_west_entry(sheet: &Sheet<'_>, place: Place) -> bool
    requires { IsSheet sheet.now }
    ensures { IsTrue result ↔ IsWestEntry (drawing_in sheet.now) place }
{
    place.col == sheet.frame.left && is_number(sheet.frame.west, place.row)
}

/// Whether there is a number, and it is this one.
fn is_number(found: Option<u32>, number: u32) -> bool
    ensures { IsTrue result ↔ found ≡ Some number }
{
    match found {
        Some(other) => other == number,
        None => false,
    }
}
