ghost use Rattle.std.specs.Prelude.{◌↔◌, IsTrue};
ghost use Rattle.two_d.specs.Places.{Within};
ghost use Rattle.grid_reader.specs.inner.Rects.{rect_shown};

use umix_base::Place;

/// A rectangle of cells, by the rows and the columns of its borders.
#[derive(Clone, Copy, Debug)]
pub struct Rect {
    pub top: u32,
    pub left: u32,
    pub bottom: u32,
    pub right: u32,
}

impl Rect {
    /// Whether a place lies strictly within the borders.
    pub fn has_within(&self, at: Place) -> bool
        ensures { IsTrue result ↔ Within (rect_shown self.now) at }
    {
        self.top < at.row && at.row < self.bottom && self.left < at.col && at.col < self.right
    }
}
