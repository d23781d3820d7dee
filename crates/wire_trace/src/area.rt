ghost use Rattle.std.specs.Prelude.{◌≡◌, ◌≤◌, ◌<◌, ◌*◌};
ghost use Rattle.grid_reader.specs.Frames.{rect_of};
ghost use Rattle.wire_trace.specs.inner.Areas.{IsAreaOf, IsSmallArea, IsIn, cell_number};

use grid_reader::Frame;
use umix_base::Place;

/// The cells of a frame with its borders, numbered row by row.
#[derive(Clone, Copy, Debug)]
pub struct Area {
    pub top: u32,
    pub left: u32,
    pub rows: usize,
    pub columns: usize,
}

impl Area {
    /// The cells of this frame.
    pub fn new(frame: &Frame) -> Area
        requires high { frame.now.top < frame.now.bottom }
        requires wide { frame.now.left < frame.now.right }
        ensures { IsAreaOf (rect_of frame.now) result }
    {
        Area {
            top: frame.top,
            left: frame.left,
            rows: (frame.bottom - frame.top) as usize + 1,
            columns: (frame.right - frame.left) as usize + 1,
        }
    }

    /// How many cells there are.
    pub fn size(&self) -> usize
        requires { IsSmallArea self.now }
        ensures { result ≡ self.now.rows * self.now.columns }
    {
        self.rows * self.columns
    }

    /// The number of a cell.
    pub fn number(&self, place: Place) -> usize
        requires small { IsSmallArea self.now }
        requires place { IsIn self.now place }
        ensures number { result ≡ cell_number self.now place }
        ensures below { result < self.now.rows * self.now.columns }
    {
        (place.row - self.top) as usize * self.columns + (place.col - self.left) as usize
    }
}
