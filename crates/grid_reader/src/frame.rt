ghost use Rattle.std.specs.Prelude.{◌≡◌, ◌+◌, ◌-◌, ◌≤◌, ◌<◌, ◌^◌, ◌==◌, IsTrue, ◌↔◌, IfOk, IfSome};
ghost use Rattle.std.specs.Prelude.{filter, slice_get, All, Ok};
ghost use Rattle.two_d.specs.Cells.{cell};
ghost use Rattle.two_d.specs.Frames.{IsTopByte, IsSideByte, IsCorner, IsFrame, InRow, InColumn};
ghost use Rattle.two_d.specs.Frames.{frames_of, columns_with, rows_with, one_entry_a_side};
ghost use Rattle.two_d.specs.Places.{at, corner_of};
ghost use Rattle.two_d.specs.Reading.{Gives};
ghost use Rattle.grid_reader.specs.Faults.{fault_of};
ghost use Rattle.grid_reader.specs.Frames.{rect_of, rects_of, IsFrameOf};
ghost use Rattle.grid_reader.specs.inner.Rects.{rect_shown, Finds};

use crate::fault::GridFault;
use crate::grid::Grid;
use crate::rect::Rect;
use crate::search::{Figures, find};
use std::alloc::{AllocError, Global};
use umix_base::Place;

/// A module's frame: the rows and the columns of its borders, and where wires enter and leave.
#[derive(Debug, Drop)]
pub struct Frame {
    /// The row of the top border.
    pub top: u32,
    /// The column of the left border.
    pub left: u32,
    /// The row of the bottom border.
    pub bottom: u32,
    /// The column of the right border.
    pub right: u32,
    /// The column of the north entry, if there is one.
    pub north: Option<u32>,
    /// The row of the west entry, if there is one.
    pub west: Option<u32>,
    /// The rows of the exits, from the top.
    pub exits: Vec<u32>,
}

/// The frames of a grid in reading order of their corners, or the first of `OpenFrame`,
/// `FramesMeet` and `TwoEntries` (docs/GRID.md, "Frames"). Takes time linear in the cells.
pub fn frames(alloc: Global, grid: &Grid) -> Result<Vec<Frame>, GridFault>
    ensures read { Gives rects_of fault_of result (frames_of grid.now) }
    ensures shown { IfOk result (λ frames. All (IsFrameOf grid.now) frames.items) }
    ensures entries { IfOk result (λ frames.
        All (λ frame. one_entry_a_side grid.now (rect_of frame) (Ok tt)) frames.items) }
{
    let rects = find(alloc, &GridFrames { grid })?;
    let mut frames = Vec::new(alloc);
    for rect in &rects {
        frames.push(frame_of(alloc, grid, rect)?)?;
    }
    Ok(frames)
}

/// The frames of a grid as figures.
#[derive(Drop)]
struct GridFrames<'a> {
    grid: &'a Grid,
}

impl Figures for GridFrames<'_> {
    ghost use Rattle.two_d.specs.Frames.{frame_kind};
    ghost use Rattle.two_d.proofs.FrameAt.{frames_searchable};

    ghost kind = { λ s. frame_kind s.grid.now };

    fn start(&self) -> Place {
        Place { row: 1, col: 1 }
    }

    fn end_row(&self) -> u32 {
        self.grid.height() + 1
    }

    fn end_col(&self, row: u32) -> u32 {
        self.grid.width(row) + 1
    }

    fn is_corner(&self, place: Place) -> bool {
        is_corner(self.grid, place)
    }

    fn figure_at(&self, place: Place) -> Option<Rect> {
        borders_at(self.grid, place)
    }

    fn check(&self, alloc: Global, figure: &Rect) -> Result<(), GridFault> {
        one_entry_a_side(alloc, self.grid, figure)
    }

    fn open_at(&self, place: Place) -> GridFault {
        GridFault::OpenFrame(place)
    }

    fn meets_at(&self, place: Place) -> GridFault {
        GridFault::FramesMeet(place)
    }

    ghost searchable = { λ s. frames_searchable s.grid.now };
}

/// Whether a `,` with `.` or `|` to its east and `:` or `-` to its south is at a place.
fn is_corner(grid: &Grid, place: Place) -> bool
    requires row { place.row + 1 < 2 ^ 32 }
    requires col { place.col + 1 < 2 ^ 32 }
    ensures { IsTrue result ↔ IsCorner grid.now place }
{
    let Place { row, col } = place;
    grid.cell(place) == b','
        && is_top_byte(grid.cell(Place { row, col: col + 1 }))
        && is_side_byte(grid.cell(Place { row: row + 1, col }))
}

fn is_top_byte(byte: u8) -> bool
    ensures { IsTrue result ↔ IsTopByte byte }
{
    byte == b'.' || byte == b'|'
}

fn is_side_byte(byte: u8) -> bool
    ensures { IsTrue result ↔ IsSideByte byte }
{
    byte == b':' || byte == b'-'
}

/// The borders of the frame with its top left corner at a place, if it has one.
fn borders_at(grid: &Grid, corner: Place) -> Option<Rect>
    requires row { corner.row + 1 < 2 ^ 32 }
    requires col { corner.col + 1 < 2 ^ 32 }
    ensures frame { Finds (IsFrame grid.now corner) result }
    ensures narrow { IfSome result (λ f. f.right ≤ 4096) }
{
    let Place {
        row: top,
        col: left,
    } = corner;
    let right = end_of_top(grid, corner);
    let bottom = end_of_left(grid, corner);
    let has_corners = grid.cell(Place {
        row: top,
        col: right,
    }) == b','
        && grid.cell(Place {
            row: bottom,
            col: left,
        }) == b'\''
        && grid.cell(Place {
            row: bottom,
            col: right,
        }) == b'\'';
    (has_corners
        && is_bottom(grid, bottom, left, right)
        && is_right(grid, right, top, bottom)).then_some(Rect {
        top,
        left,
        bottom,
        right,
    })
}

/// The first column after the corner whose cell is no part of a top border.
fn end_of_top(grid: &Grid, corner: Place) -> u32
    requires { corner.col + 1 < 2 ^ 32 }
    ensures after { corner.col < result }
    ensures run { InRow IsTopByte grid.now corner.row corner.col result }
    ensures end { IsTopByte (cell grid.now (at corner.row result)) → ⊥ }
{
    let mut col = corner.col + 1;
    'run: while is_top_byte(grid.cell(Place {
        row: corner.row,
        col,
    })) {
        col += 1;
    }
    col
}

/// The first row under the corner whose cell is no part of a left border.
fn end_of_left(grid: &Grid, corner: Place) -> u32
    requires { corner.row + 1 < 2 ^ 32 }
    ensures after { corner.row < result }
    ensures run { InColumn IsSideByte grid.now corner.col corner.row result }
    ensures end { IsSideByte (cell grid.now (at result corner.col)) → ⊥ }
{
    let mut row = corner.row + 1;
    'run: while is_side_byte(grid.cell(Place {
        row,
        col: corner.col,
    })) {
        row += 1;
    }
    row
}

/// Whether the cells of a row strictly between two columns are dots.
fn is_bottom(grid: &Grid, row: u32, left: u32, right: u32) -> bool
    requires { left + 1 < 2 ^ 32 }
    ensures { IsTrue result ↔ InRow (λ b. b ≡ 46) grid.now row left right }
{
    for col in left + 1..right {
        if grid.cell(Place { row, col }) != b'.' {
            return false;
        }
    }
    true
}

/// Whether the cells of a column strictly between two rows are part of a right border.
fn is_right(grid: &Grid, col: u32, top: u32, bottom: u32) -> bool
    requires { top + 1 < 2 ^ 32 }
    ensures { IsTrue result ↔ InColumn IsSideByte grid.now col top bottom }
{
    for row in top + 1..bottom {
        if !is_side_byte(grid.cell(Place { row, col })) {
            return false;
        }
    }
    true
}

/// Refuses the second entry of a border.
fn one_entry_a_side(alloc: Global, grid: &Grid, frame: &Rect) -> Result<(), GridFault>
    requires wide { frame.now.left < frame.now.right }
    requires high { frame.now.top < frame.now.bottom }
    ensures { Gives (λ _. tt) fault_of result (one_entry_a_side grid.now (rect_shown frame.now)) }
{
    let norths = columns_of(alloc, grid, frame, frame.top, b'|')?;
    if let Some(col) = second(&norths) {
        return Err(GridFault::TwoEntries(Place {
            row: frame.top,
            col,
        }));
    }
    let wests = rows_of(alloc, grid, frame, frame.left, b'-')?;
    if let Some(row) = second(&wests) {
        return Err(GridFault::TwoEntries(Place {
            row,
            col: frame.left,
        }));
    }
    Ok(())
}

fn second(numbers: &[u32]) -> Option<u32>
    ensures { result ≡ slice_get numbers.now 1 }
{
    numbers.get(1).copied()
}

/// The frame with these borders, with its entries and exits.
fn frame_of(alloc: Global, grid: &Grid, rect: &Rect) -> Result<Frame, AllocError>
    requires { IsFrame grid.now (corner_of (rect_shown rect.now)) (rect_shown rect.now) }
    ensures rect { IfOk result (λ frame. rect_of frame ≡ rect_shown rect.now) }
    ensures shown { IfOk result (IsFrameOf grid.now) }
{
    let norths = columns_of(alloc, grid, rect, rect.top, b'|')?;
    let wests = rows_of(alloc, grid, rect, rect.left, b'-')?;
    let exits = rows_of(alloc, grid, rect, rect.right, b'-')?;
    Ok(Frame {
        top: rect.top,
        left: rect.left,
        bottom: rect.bottom,
        right: rect.right,
        north: norths.first().copied(),
        west: wests.first().copied(),
        exits,
    })
}

/// The columns strictly within a rectangle where a row has a byte, from the left.
fn columns_of(
    alloc: Global,
    grid: &Grid,
    rect: &Rect,
    row: u32,
    byte: u8,
) -> Result<Vec<u32>, AllocError>
    requires { rect.now.left < rect.now.right }
    ensures { IfOk result (λ v. v.items ≡ columns_with grid.now row byte (rect_shown rect.now)) }
{
    (rect.left + 1..rect.right)
        .filter(|col| grid.cell(Place { row, col: *col }) == byte)
        .collect(alloc)
}

/// The rows strictly within a rectangle where a column has a byte, from the top.
fn rows_of(
    alloc: Global,
    grid: &Grid,
    rect: &Rect,
    col: u32,
    byte: u8,
) -> Result<Vec<u32>, AllocError>
    requires { rect.now.top < rect.now.bottom }
    ensures { IfOk result (λ v. v.items ≡ rows_with grid.now col byte (rect_shown rect.now)) }
{
    (rect.top + 1..rect.bottom)
        .filter(|row| grid.cell(Place { row: *row, col }) == byte)
        .collect(alloc)
}
