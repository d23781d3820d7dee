//! The ways of wires over a module's drawing.

ghost use Rattle.std.specs.Prelude.{◌≡◌, ◌+◌, ◌++◌, ◌∷◌, ◌≤◌, ◌<◌, ◌^◌, ◌==◌};
ghost use Rattle.std.specs.Prelude.{◌&&◌, [], IfOk, OnOk, Some, ℕ, slice_get};
ghost use Rattle.two_d.specs.Places.{at};
ghost use Rattle.grid_picture.specs.Courses.{along, has_cell};
ghost use Rattle.grid_draw.specs.Layout as layouts;
ghost use Rattle.grid_draw.specs.Layout.{last_bends, wires_in};
ghost use Rattle.grid_draw.specs.inner.Layouts.{IsEndOf, IsLayout, IsNarrow};
ghost use Rattle.grid_draw.specs.inner.Layouts.{IsStartOf, module_in, wire_of};
ghost use Rattle.grid_draw.specs.inner.Legs.{IsBegun, IsCourse, IsNear};
ghost use Rattle.grid_draw.specs.inner.Legs.{bend_of, bends_of, direction_of, place_of};
ghost use Rattle.grid_draw.specs.inner.Sets.{is_in};

use crate::cells::Area;
use crate::layout::{Layout, Wire, box_row};
use std::alloc::Global;
use two_d::{Origin, To};
use umix_base::Memory;

/// A direction in which a wire runs.
#[derive(Clone, Copy, PartialEq, Eq, Debug)]
pub enum Direction {
    East,
    West,
    South,
    North,
}

/// A cell of a drawing.
#[derive(Clone, Copy, Debug)]
pub struct Point {
    pub row: usize,
    pub col: usize,
}

/// From a cell straight on, so many cells.
#[derive(Clone, Copy, Debug)]
pub struct Leg {
    pub from: Point,
    pub to: Direction,
    pub long: usize,
}

/// A turn, and how many cells the wire goes on behind it.
#[derive(Clone, Copy, Debug)]
pub struct Bend {
    pub to: Direction,
    pub long: usize,
}

/// A wire: its first leg, and its turns.
#[derive(Drop)]
pub struct Course {
    pub first: Leg,
    pub bends: Vec<Bend>,
}

impl Point {
    /// The cell alone.
    pub fn area(&self) -> Area
        requires row { self.now.row < 2 ^ 62 }
        requires col { self.now.col < 2 ^ 62 }
        ensures { (r : ℕ) (c : ℕ) → is_in result r c
            ≡ ((self.now.row == r) && (self.now.col == c)) }
    {
        Area {
            top: self.row,
            bottom: self.row + 1,
            left: self.col,
            right: self.col + 1,
        }
    }
}

impl Bend {
    fn new(to: Direction, long: usize) -> Bend
        ensures { result ≡ record { to = to; long = long } }
    {
        Bend { to, long }
    }
}

impl Leg {
    fn new(row: usize, col: usize, to: Direction, long: usize) -> Leg
        ensures { result ≡ record { from = record { row = row; col = col }; to = to; long = long } }
    {
        Leg {
            from: Point { row, col },
            to,
            long,
        }
    }

    /// The cells of the leg, its two ends among them.
    pub fn area(&self) -> Area
        requires { IsNear self.now }
        ensures { (r : ℕ) (c : ℕ) → is_in result r c
            ≡ has_cell (direction_of self.now.to) (place_of self.now.from) self.now.long (at r c) }
    {
        let Point { row, col } = self.from;
        let long = self.long;
        match self.to {
            Direction::East => Area {
                top: row,
                bottom: row + 1,
                left: col,
                right: col + long + 1,
            },
            Direction::West => Area {
                top: row,
                bottom: row + 1,
                left: col.saturating_sub(long),
                right: col + 1,
            },
            Direction::South => Area {
                top: row,
                bottom: row + long + 1,
                left: col,
                right: col + 1,
            },
            Direction::North => Area {
                top: row.saturating_sub(long),
                bottom: row + 1,
                left: col,
                right: col + 1,
            },
        }
    }

    /// The cell at its end.
    pub fn end(&self) -> Point
        requires { IsNear self.now }
        ensures { place_of result
            ≡ along (direction_of self.now.to) self.now.long (place_of self.now.from) }
    {
        let Point { row, col } = self.from;
        let long = self.long;
        match self.to {
            Direction::East => Point {
                row,
                col: col + long,
            },
            Direction::West => Point {
                row,
                col: col.saturating_sub(long),
            },
            Direction::South => Point {
                row: row + long,
                col,
            },
            Direction::North => Point {
                row: row.saturating_sub(long),
                col,
            },
        }
    }
}

/// Wire j of the drawing.
pub fn course_on(alloc: Global, layout: &Layout, j: usize, wire: Wire) -> Result<Course, Memory>
    requires narrow { IsNarrow layout.now }
    requires there { slice_get (wires_in (module_in layout.now)) j ≡ Some (wire_of wire) }
    ensures { IfOk result (λ course. IsCourse course (layouts.course_on (module_in layout.now)
        (layouts.track (module_in layout.now) j) (wire_of wire) wire.from)) }
{
    let track = layout.track(j);
    let mut bends = Vec::new(alloc);
    let first = first_leg(&mut bends, layout, track, wire)?;
    push_last(&mut bends, layout, track, wire.to)?;
    Ok(Course { first, bends })
}

/// From the start of a wire to its track, and where it has more than one leg before it leaves its
/// track, the bends of those behind the first.
fn first_leg(
    bends: &mut Vec<Bend>,
    layout: &Layout,
    track: usize,
    wire: Wire,
) -> Result<Leg, Memory>
    requires layout { IsLayout layout.now }
    requires from { IsStartOf (module_in layout.now) wire.from }
    requires to { IsEndOf (module_in layout.now) wire.to }
    requires past { layout.now.reach + 3 ≤ track }
    ensures { IfOk result (λ leg. IsBegun (module_in layout.now) track (wire_of wire) leg
        (bends_of bends.old.items) (bends_of bends.new.items)) }
{
    let end = layout.end_row(wire.to);
    match wire.from {
        Origin::North => Ok(Leg::new(0, track, Direction::South, end)),
        Origin::West => {
            bends.push(up_or_down(2, end))?;
            Ok(Leg::new(2, 0, Direction::East, track))
        }
        Origin::East(b) => {
            let col = layout.east_of(b);
            bends.push(up_or_down(box_row(b, 4), end))?;
            Ok(Leg::new(box_row(b, 4), col, Direction::East, track - col))
        }
        Origin::South(b) => {
            bends.push(Bend::new(Direction::East, track - 5))?;
            bends.push(up_or_down(box_row(b, 7), end))?;
            Ok(Leg::new(box_row(b, 6), 5, Direction::South, 1))
        }
    }
}

/// From the track to the end.
fn push_last(bends: &mut Vec<Bend>, layout: &Layout, track: usize, to: To) -> Result<(), Memory>
    requires layout { IsLayout layout.now }
    requires to { IsEndOf (module_in layout.now) to }
    requires past { layout.now.reach + 3 ≤ track }
    requires within { track ≤ layouts.columns (module_in layout.now) }
    ensures { OnOk result (bends_of bends.new.items
        ≡ bends_of bends.old.items ++ last_bends (module_in layout.now) track to) }
{
    match to {
        To::N(_) => {
            bends.push(Bend::new(Direction::West, track - 5))?;
            bends.push(Bend::new(Direction::South, 1))?;
        }
        To::W(_) => {
            bends.push(Bend::new(Direction::West, track - 2))?;
            bends.push(Bend::new(Direction::South, 4))?;
            bends.push(Bend::new(Direction::East, 1))?;
        }
        To::Exit(_) => bends.push(Bend::new(Direction::East, layout.columns() + 1 - track))?,
    }
    Ok(())
}

/// From a row to another in one column.
fn up_or_down(from: usize, to: usize) -> Bend
    ensures { bend_of result ≡ layouts.up_or_down from to }
{
    if from < to {
        Bend::new(Direction::South, to - from)
    } else {
        Bend::new(Direction::North, from - to)
    }
}
