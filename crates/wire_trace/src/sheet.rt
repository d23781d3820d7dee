ghost use Rattle.std.specs.Prelude.{◌↔◌, ◌<◌, ◌^◌, ◌+◌, IsTrue};
ghost use Rattle.two_d.specs.Places.{Within};
ghost use Rattle.two_d.specs.Ports.{Holds, IsNameCell, IsExit, IsAcross, IsAlong, IsNPort, IsWPort, IsSPort, IsEPort};
ghost use Rattle.grid_reader.specs.Boxes.{box_rect};
ghost use Rattle.wire_trace.specs.inner.Sheets.{drawing_in, IsExitCell, MayBeginEast};

use grid_reader::{BoxFrame, Frame, Grid};
use umix_base::Place;

/// A module as it is drawn.
#[derive(Drop)]
pub struct Sheet<'a> {
    pub grid: &'a Grid,
    pub frame: &'a Frame,
    /// The length of the module's name.
    pub name: usize,
    pub boxes: &'a [BoxFrame],
}

impl Sheet<'_> {
    /// Whether an interior cell has a byte.
    pub fn holds(&self, byte: u8, place: Place) -> bool
        ensures { IsTrue result ↔ Holds (drawing_in self.now) byte place }
    {
        self.is_interior(place) && self.grid.cell(place) == byte
    }

    /// Whether a cell is one of the interior.
    pub fn is_interior(&self, place: Place) -> bool
        ensures { IsTrue result ↔ Within (drawing_in self.now).frame place }
    {
        self.frame.top < place.row
            && place.row < self.frame.bottom
            && self.frame.left < place.col
            && place.col < self.frame.right
    }

    /// Whether a cell is one of the module's name.
    pub fn is_name_cell(&self, place: Place) -> bool
        requires { self.now.frame.now.top + 1 < 2 ^ 32 }
        ensures { IsTrue result ↔ IsNameCell (drawing_in self.now) place }
    {
        place.row == self.frame.top + 1
            && self.frame.left < place.col
            && (place.col - self.frame.left) as usize <= self.name
    }

    /// Whether a cell is an exit.
    pub fn is_exit(&self, place: Place) -> bool
        ensures { IsTrue result ↔ IsExit (drawing_in self.now) place }
    {
        self.leaves(place)
    }

    /// Whether a cell is a `-` of the right border.
    fn leaves(&self, place: Place) -> bool
        ensures { IsTrue result ↔ IsExitCell (drawing_in self.now) place }
    {
        place.col == self.frame.right
            && self.frame.top < place.row
            && place.row < self.frame.bottom
            && self.grid.cell(place) == b'-'
    }

    /// Whether a cell has a `-` of the interior or of the right border.
    pub fn may_begin_east(&self, place: Place) -> bool
        ensures { IsTrue result ↔ MayBeginEast (drawing_in self.now) place }
    {
        self.holds(b'-', place) || self.is_exit(place)
    }

    /// Whether a cell is an N port of a box.
    pub fn is_north_port(&self, figure: &BoxFrame, place: Place) -> bool
        requires row { place.row + 1 < 2 ^ 32 }
        requires top { self.now.frame.now.top + 1 < 2 ^ 32 }
        ensures { IsTrue result ↔ IsNPort (drawing_in self.now) (box_rect figure.now) place }
    {
        self.holds(b'v', place)
            && place.row + 1 == figure.top
            && is_across(figure, place)
            && !self.is_name_cell(place)
    }

    /// Whether a cell is a W port of a box.
    pub fn is_west_port(&self, figure: &BoxFrame, place: Place) -> bool
        requires col { place.col + 1 < 2 ^ 32 }
        ensures { IsTrue result ↔ IsWPort (drawing_in self.now) (box_rect figure.now) place }
    {
        self.holds(b'>', place) && place.col + 1 == figure.left && is_along(figure, place)
    }

    /// Whether a cell is an S port of a box.
    pub fn is_south_port(&self, figure: &BoxFrame, place: Place) -> bool
        requires { figure.now.bottom + 1 < 2 ^ 32 }
        ensures { IsTrue result ↔ IsSPort (drawing_in self.now) (box_rect figure.now) place }
    {
        self.holds(b'|', place) && place.row == figure.bottom + 1 && is_across(figure, place)
    }

    /// Whether a cell is an E port of a box.
    pub fn is_east_port(&self, figure: &BoxFrame, place: Place) -> bool
        requires { figure.now.right + 1 < 2 ^ 32 }
        ensures { IsTrue result ↔ IsEPort (drawing_in self.now) (box_rect figure.now) place }
    {
        self.may_begin_east(place) && place.col == figure.right + 1 && is_along(figure, place)
    }
}

/// Whether a place is in a column strictly between the corners of a box.
fn is_across(figure: &BoxFrame, place: Place) -> bool
    ensures { IsTrue result ↔ IsAcross (box_rect figure.now) place }
{
    figure.left < place.col && place.col < figure.right
}

/// Whether a place is in a row strictly between the corners of a box.
fn is_along(figure: &BoxFrame, place: Place) -> bool
    ensures { IsTrue result ↔ IsAlong (box_rect figure.now) place }
{
    figure.top < place.row && place.row < figure.bottom
}
