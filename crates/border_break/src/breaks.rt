//! Where a border breaks.

ghost use Rattle.std.specs.Prelude.{◌≡◌, ◌<◌, ◌+◌, ◌^◌, MatchOption};
ghost use Rattle.two_d.specs.Cells.{cell};
ghost use Rattle.two_d.specs.Frames.{InColumn, InRow};
ghost use Rattle.two_d.specs.Places.{IsLeast};
ghost use Rattle.grid_reader.specs.Rows.{IsSmall};
ghost use Rattle.border_break.specs.Borders as plain;
ghost use Rattle.border_break.specs.Borders.{IsOfBottom, IsOfSide};
ghost use Rattle.border_break.specs.Breaks.{BottomCloses, BreaksBottom, BreaksRight, IsBreak};
ghost use Rattle.border_break.specs.Breaks.{LeftCloses, LeftEnds, TopEnds, break_at};

use crate::border::{is_of_bottom, is_of_side, is_of_top, lower_corner, upper_corner};
use crate::figure::{Break, Figure, Side};
use grid_reader::Grid;
use umix_base::Place;

/// Where the border breaks of the frame or box whose upper left corner is at a place: the first cell
/// that isn't what belongs there, along top, left side, bottom and right side, in this order. None
/// where the place has no such corner, and where the four sides close. Takes no memory, and time
/// linear in the sides. See docs/EXPLAIN.md, "The page of a drawing".
pub fn break_of(grid: &Grid, figure: Figure, corner: Place) -> Option<Break>
    ensures { IsBreak grid.now figure corner result }
{
    if grid.cell(corner) != upper_corner(figure) {
        return None;
    }
    let right = end_of_top(grid, figure, corner);
    let bottom = end_of_left(grid, figure, corner);
    if byte_at(grid, corner.row, right) != upper_corner(figure) {
        return broken(Side::Top, corner.row, right);
    }
    if byte_at(grid, bottom, corner.col) != lower_corner(figure) {
        return broken(Side::Left, bottom, corner.col);
    }
    break_of_bottom(grid, figure, corner, right, bottom)
}

/// The same, where top and left side close.
fn break_of_bottom(
    grid: &Grid,
    figure: Figure,
    corner: Place,
    right: u32,
    bottom: u32,
) -> Option<Break>
    requires { LeftCloses grid.now figure corner right bottom }
    ensures { IsBreak grid.now figure corner result }
{
    if let Some(col) = gap_in_row(grid, figure, bottom, corner.col, right) {
        return broken(Side::Bottom, bottom, col);
    }
    if byte_at(grid, bottom, right) != lower_corner(figure) {
        return broken(Side::Bottom, bottom, right);
    }
    break_of_right(grid, figure, corner, right, bottom)
}

/// The same, where all but the right side close.
fn break_of_right(
    grid: &Grid,
    figure: Figure,
    corner: Place,
    right: u32,
    bottom: u32,
) -> Option<Break>
    requires { BottomCloses grid.now figure corner right bottom }
    ensures { IsBreak grid.now figure corner result }
{
    match gap_in_column(grid, figure, right, corner.row, bottom) {
        Some(row) => broken(Side::Right, row, right),
        None => None,
    }
}

fn broken(side: Side, row: u32, col: u32) -> Option<Break>
    ensures { result ≡ break_at side row col }
{
    Some(Break {
        side,
        place: Place { row, col },
    })
}

fn byte_at(grid: &Grid, row: u32, col: u32) -> u8
    ensures small { IsSmall grid.now }
    ensures byte { result ≡ cell grid.now (record { row = row; col = col }) }
{
    grid.cell(Place { row, col })
}

/// The first column after the corner whose cell isn't of a top.
#[tactic(auto, using(crate::proofs::Bounds::corner_column, crate::proofs::Bounds::top_column))]
fn end_of_top(grid: &Grid, figure: Figure, corner: Place) -> u32
    requires small { IsSmall grid.now }
    requires corner { cell grid.now corner ≡ plain.upper_corner figure }
    ensures { TopEnds grid.now figure corner result }
{
    let mut col = corner.col + 1;
    'run: while is_of_top(figure, byte_at(grid, corner.row, col)) {
        col += 1;
    }
    col
}

/// The first row under the corner whose cell isn't of a side.
#[tactic(auto, using(crate::proofs::Bounds::corner_row, crate::proofs::Bounds::side_row))]
fn end_of_left(grid: &Grid, figure: Figure, corner: Place) -> u32
    requires small { IsSmall grid.now }
    requires corner { cell grid.now corner ≡ plain.upper_corner figure }
    ensures { LeftEnds grid.now figure corner result }
{
    let mut row = corner.row + 1;
    'run: while is_of_side(figure, byte_at(grid, row, corner.col)) {
        row += 1;
    }
    row
}

/// The first column strictly between two others whose cell isn't of a bottom.
#[tactic(auto, using(crate::proofs::Gaps::least_column))]
fn gap_in_row(grid: &Grid, figure: Figure, row: u32, left: u32, right: u32) -> Option<u32>
    requires { left < right }
    ensures { MatchOption result (InRow (IsOfBottom figure) grid.now row left right)
        (IsLeast (BreaksBottom grid.now figure row left right)) }
{
    for col in left + 1..right {
        if !is_of_bottom(figure, byte_at(grid, row, col)) {
            return Some(col);
        }
    }
    None
}

/// The first row strictly between two others whose cell isn't of a side.
#[tactic(auto, using(crate::proofs::Gaps::least_row))]
fn gap_in_column(grid: &Grid, figure: Figure, col: u32, top: u32, bottom: u32) -> Option<u32>
    requires { top < bottom }
    ensures { MatchOption result (InColumn (IsOfSide figure) grid.now col top bottom)
        (IsLeast (BreaksRight grid.now figure col top bottom)) }
{
    for row in top + 1..bottom {
        if !is_of_side(figure, byte_at(grid, row, col)) {
            return Some(row);
        }
    }
    None
}
