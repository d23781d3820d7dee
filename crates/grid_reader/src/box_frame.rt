ghost use Rattle.std.specs.Prelude.{◌≡◌, ◌+◌, ◌≤◌, ◌<◌, ◌^◌, ◌++◌, ◌↔◌, ◌≢◌, IsTrue, IfOk, OnOk};
ghost use Rattle.std.specs.Prelude.{IfSome, All};
ghost use Rattle.two_d.specs.Cells.{cell};
ghost use Rattle.two_d.specs.Frames.{InRow, InColumn};
ghost use Rattle.two_d.specs.Boxes.{IsBoxCorner, IsBox, boxes_of};
ghost use Rattle.two_d.specs.Places.{at};
ghost use Rattle.two_d.specs.Reading.{Gives};
ghost use Rattle.grid_reader.specs.Faults.{fault_of};
ghost use Rattle.grid_reader.specs.Frames.{rect_of, IsFrameOf};
ghost use Rattle.grid_reader.specs.Boxes.{box_rect, box_rects, HasTextOf, IsBoxOf, Fits, HasCorners, inner_row};
ghost use Rattle.grid_reader.specs.inner.Rects.{rect_shown, Finds};

use crate::fault::GridFault;
use crate::frame::Frame;
use crate::grid::Grid;
use crate::rect::Rect;
use crate::search::{Figures, find};
use std::alloc::{AllocError, Global};
use umix_base::Place;

/// A box: the rows and the columns of its borders, and its command text.
#[derive(Debug, Drop)]
pub struct BoxFrame {
    /// The row of the top edge.
    pub top: u32,
    /// The column of the left side.
    pub left: u32,
    /// The row of the bottom edge.
    pub bottom: u32,
    /// The column of the right side.
    pub right: u32,
    /// The inner rows, joined by one space.
    pub text: Vec<u8>,
}

/// The boxes of a frame in reading order of their corners, or the first of `OpenBox` and
/// `BoxesMeet` (docs/GRID.md, "Boxes"). Takes time linear in the cells of the frame.
pub fn boxes(alloc: Global, grid: &Grid, frame: &Frame) -> Result<Vec<BoxFrame>, GridFault>
    requires { IsFrameOf grid.now frame.now }
    ensures read { Gives box_rects fault_of result (boxes_of grid.now (rect_of frame.now)) }
    ensures shown { IfOk result (λ boxes. All (IsBoxOf grid.now (rect_of frame.now)) boxes.items) }
{
    let frame = Rect {
        top: frame.top,
        left: frame.left,
        bottom: frame.bottom,
        right: frame.right,
    };
    let rects = find(alloc, &GridBoxes { grid, frame })?;
    let mut boxes = Vec::new(alloc);
    for rect in &rects {
        boxes.push(box_of(alloc, grid, rect)?)?;
    }
    Ok(boxes)
}

/// The boxes of a frame as figures.
#[derive(Drop)]
struct GridBoxes<'a> {
    grid: &'a Grid,
    frame: Rect,
}

impl Figures for GridBoxes<'_> {
    ghost use Rattle.two_d.specs.Boxes.{box_kind};
    ghost use Rattle.two_d.proofs.BoxAt.{boxes_searchable};

    ghost kind = { λ s. box_kind s.grid.now (rect_shown s.frame) };

    fn start(&self) -> Place {
        Place {
            row: self.frame.top,
            col: self.frame.left,
        }
    }

    fn end_row(&self) -> u32 {
        self.frame.bottom
    }

    fn end_col(&self, _row: u32) -> u32 {
        self.frame.right
    }

    fn is_corner(&self, place: Place) -> bool {
        is_box_corner(self.grid, &self.frame, place)
    }

    fn figure_at(&self, place: Place) -> Option<Rect> {
        edges_at(self.grid, &self.frame, place)
    }

    fn check(&self, _alloc: Global, _figure: &Rect) -> Result<(), GridFault> {
        Ok(())
    }

    fn open_at(&self, place: Place) -> GridFault {
        GridFault::OpenBox(place)
    }

    fn meets_at(&self, place: Place) -> GridFault {
        GridFault::BoxesMeet(place)
    }

    ghost searchable = { λ s. boxes_searchable s.grid.now (rect_shown s.frame) };
}

/// Whether a `*` with `=` to its east and `!` to its south is at a place within a frame.
fn is_box_corner(grid: &Grid, frame: &Rect, place: Place) -> bool
    requires row { place.row + 1 < 2 ^ 32 }
    requires col { place.col + 1 < 2 ^ 32 }
    ensures { IsTrue result ↔ IsBoxCorner grid.now (rect_shown frame.now) place }
{
    let Place { row, col } = place;
    frame.has_within(place)
        && grid.cell(place) == b'*'
        && grid.cell(Place { row, col: col + 1 }) == b'='
        && grid.cell(Place { row: row + 1, col }) == b'!'
}

/// The edges of the box with its top left corner at a place, if it has one within the frame.
fn edges_at(grid: &Grid, frame: &Rect, corner: Place) -> Option<Rect>
    requires row { corner.row + 1 < 2 ^ 32 }
    requires col { corner.col + 1 < 2 ^ 32 }
    ensures edges { Finds (IsBox grid.now (rect_shown frame.now) corner) result }
    ensures narrow { IfSome result (λ b. b.right ≤ 4096) }
{
    let Place {
        row: top,
        col: left,
    } = corner;
    let edges = Rect {
        top,
        left,
        bottom: end_of_left(grid, corner),
        right: end_of_top(grid, corner),
    };
    (fits(frame, &edges)
        && has_corners(grid, &edges)
        && is_bottom(grid, edges.bottom, left, edges.right)
        && is_right(grid, edges.right, top, edges.bottom)).then_some(edges)
}

/// Whether a box with these edges has a row and a column within, and lies within a frame.
fn fits(frame: &Rect, edges: &Rect) -> bool
    requires left { edges.now.left + 1 < 2 ^ 32 }
    requires top { edges.now.top + 1 < 2 ^ 32 }
    ensures { IsTrue result ↔ Fits (rect_shown frame.now) (rect_shown edges.now) }
{
    let Rect {
        top,
        left,
        bottom,
        right,
    } = *edges;
    frame.has_within(Place {
        row: top,
        col: left,
    }) && frame.has_within(Place {
        row: bottom,
        col: right,
    }) && left + 1 < right
        && top + 1 < bottom
}

/// Whether a `*` is at the three corners behind the first.
fn has_corners(grid: &Grid, edges: &Rect) -> bool
    ensures corners { IsTrue result ↔ HasCorners grid.now (rect_shown edges.now) }
    ensures narrow { IsTrue result → edges.now.right ≤ 4096 }
{
    let Rect {
        top,
        left,
        bottom,
        right,
    } = *edges;
    grid.cell(Place {
        row: top,
        col: right,
    }) == b'*'
        && grid.cell(Place {
            row: bottom,
            col: left,
        }) == b'*'
        && grid.cell(Place {
            row: bottom,
            col: right,
        }) == b'*'
}

/// The first column after the corner whose cell is no part of a top edge.
fn end_of_top(grid: &Grid, corner: Place) -> u32
    requires { corner.col + 1 < 2 ^ 32 }
    ensures after { corner.col < result }
    ensures run { InRow (λ b. b ≡ 61) grid.now corner.row corner.col result }
    ensures end { cell grid.now (at corner.row result) ≢ 61 }
{
    let mut col = corner.col + 1;
    'run: while grid.cell(Place {
        row: corner.row,
        col,
    }) == b'='
    {
        col += 1;
    }
    col
}

/// The first row under the corner whose cell is no part of a left side.
fn end_of_left(grid: &Grid, corner: Place) -> u32
    requires { corner.row + 1 < 2 ^ 32 }
    ensures after { corner.row < result }
    ensures run { InColumn (λ b. b ≡ 33) grid.now corner.col corner.row result }
    ensures end { cell grid.now (at result corner.col) ≢ 33 }
{
    let mut row = corner.row + 1;
    'run: while grid.cell(Place {
        row,
        col: corner.col,
    }) == b'!'
    {
        row += 1;
    }
    row
}

/// Whether the cells of a row strictly between two columns are a bottom edge.
fn is_bottom(grid: &Grid, row: u32, left: u32, right: u32) -> bool
    requires { left + 1 < 2 ^ 32 }
    ensures { IsTrue result ↔ InRow (λ b. b ≡ 61) grid.now row left right }
{
    for col in left + 1..right {
        if grid.cell(Place { row, col }) != b'=' {
            return false;
        }
    }
    true
}

/// Whether the cells of a column strictly between two rows are a right side.
fn is_right(grid: &Grid, col: u32, top: u32, bottom: u32) -> bool
    requires { top + 1 < 2 ^ 32 }
    ensures { IsTrue result ↔ InColumn (λ b. b ≡ 33) grid.now col top bottom }
{
    for row in top + 1..bottom {
        if grid.cell(Place { row, col }) != b'!' {
            return false;
        }
    }
    true
}

/// The box with these borders, with its text.
fn box_of(alloc: Global, grid: &Grid, rect: &Rect) -> Result<BoxFrame, AllocError>
    requires wide { rect.now.left + 1 < rect.now.right }
    requires high { rect.now.top + 1 < rect.now.bottom }
    ensures rect { IfOk result (λ b. box_rect b ≡ rect_shown rect.now) }
    ensures text { IfOk result (HasTextOf grid.now) }
{
    let mut text = Vec::new(alloc);
    push_row(&mut text, grid, rect, rect.top + 1)?;
    for row in rect.top + 2..rect.bottom {
        text.push(b' ')?;
        push_row(&mut text, grid, rect, row)?;
    }
    Ok(BoxFrame {
        top: rect.top,
        left: rect.left,
        bottom: rect.bottom,
        right: rect.right,
        text,
    })
}

/// Adds the inner cells of a box in one row.
fn push_row(text: &mut Vec<u8>, grid: &Grid, rect: &Rect, row: u32) -> Result<(), AllocError>
    requires { rect.now.left < rect.now.right }
    ensures { OnOk result (text.new.items ≡ text.old.items ++ inner_row grid.now rect.now row) }
{
    for col in rect.left + 1..rect.right {
        text.push(grid.cell(Place { row, col }))?;
    }
    Ok(())
}
