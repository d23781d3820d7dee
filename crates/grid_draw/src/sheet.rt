//! The cells of a module's drawing over which wires run.

ghost use Rattle.std.specs.Prelude.{◌≡◌, ◌+◌, ◌*◌, ◌<◌, ◌≤◌, ◌^◌, ◌∷◌, [], IfOk};
ghost use Rattle.grid_picture.specs.Courses.{along};
ghost use Rattle.grid_draw.specs.Layout as layouts;
ghost use Rattle.grid_draw.specs.inner.Inks.{AreSized, Inks, IsBlank, IsInked, IsWhole, mark_byte};
ghost use Rattle.grid_draw.specs.inner.Layouts.{IsNarrow, module_in};
ghost use Rattle.grid_draw.specs.inner.Legs.{IsNear, IsWithin, bent_of, legs_of};
ghost use Rattle.grid_draw.specs.inner.Legs.{direction_of, form_of, place_of};
ghost use Rattle.grid_draw.specs.inner.Sets.{has};

use crate::cells::CellSet;
use crate::course::{Course, Direction, Leg, Point, course_on};
use crate::layout::Layout;
use std::alloc::Global;
use umix_base::Memory;

/// Where wires pass, by axis, and where they turn.
#[derive(Drop)]
pub struct Sheet {
    across: CellSet,
    down: CellSet,
    turns: CellSet,
}

impl Sheet {
    /// The sheet of a module's drawing, with all wires.
    pub fn inked(alloc: Global, layout: &Layout) -> Result<Sheet, Memory>
        requires narrow { IsNarrow layout.now }
        requires short { (layouts.rows (module_in layout.now) + 2)
            * (layouts.columns (module_in layout.now) + 2) ≤ 262144 }
        ensures { IfOk result (IsInked (module_in layout.now)) }
    {
        let mut sheet = Sheet::new(alloc, layout.rows() + 2, layout.columns() + 2)?;
        for (j, wire) in layout.wires.iter().enumerate() {
            let course = course_on(alloc, layout, j, *wire)?;
            sheet.lay(&course);
        }
        Ok(sheet)
    }

    /// A sheet of so many rows and columns, without wires.
    fn new(alloc: Global, rows: usize, columns: usize) -> Result<Sheet, Memory>
        requires { rows * columns < 2 ^ 64 }
        ensures sized { IfOk result (AreSized rows columns) }
        ensures blank { IfOk result IsBlank }
    {
        Ok(Sheet {
            across: CellSet::new(alloc, rows, columns)?,
            down: CellSet::new(alloc, rows, columns)?,
            turns: CellSet::new(alloc, rows, columns)?,
        })
    }

    /// Whether a wire passes the cell to the left or to the right.
    pub fn passes_across(&self, row: usize, col: usize) -> bool
        requires whole { IsWhole self.now }
        requires row { row < self.now.across.rows }
        requires col { col < self.now.across.columns }
        ensures { result ≡ has self.now.across row col }
    {
        self.across.has(row, col)
    }

    /// Whether a wire passes the cell upwards or downwards.
    pub fn passes_down(&self, row: usize, col: usize) -> bool
        requires whole { IsWhole self.now }
        requires row { row < self.now.across.rows }
        requires col { col < self.now.across.columns }
        ensures { result ≡ has self.now.down row col }
    {
        self.down.has(row, col)
    }

    /// The byte of a cell of wires.
    pub fn byte(&self, row: usize, col: usize) -> u8
        requires whole { IsWhole self.now }
        requires row { row < self.now.across.rows }
        requires col { col < self.now.across.columns }
        ensures { result ≡ mark_byte (has self.now.turns row col) (has self.now.across row col)
            (has self.now.down row col) }
    {
        if self.turns.has(row, col) {
            return b'+';
        }
        match (self.passes_across(row, col), self.passes_down(row, col)) {
            (true, true) => b'#',
            (true, false) => b'-',
            (false, true) => b'|',
            (false, false) => b' ',
        }
    }

    /// Lays a wire.
    fn lay(&mut self, course: &Course)
        requires whole { IsWhole self.old }
        requires within { IsWithin course.now }
        ensures { Inks self.old self.new (legs_of course.now) (bent_of course.now) }
    {
        let mut pen = self.run(course.first);
        for bend in &course.bends {
            pen = self.turn(Leg {
                from: pen,
                to: bend.to,
                long: bend.long,
            });
        }
    }

    /// Turns, and runs straight on to the cell at the end.
    fn turn(&mut self, leg: Leg) -> Point
        requires whole { IsWhole self.old }
        requires near { IsNear leg }
        ensures end { place_of result ≡ along (direction_of leg.to) leg.long (place_of leg.from) }
        ensures inks { Inks self.old self.new (form_of leg ∷ []) (form_of leg ∷ []) }
    {
        self.turns.add(leg.from.area());
        self.run(leg)
    }

    /// Runs straight on to the cell at the end.
    fn run(&mut self, leg: Leg) -> Point
        requires whole { IsWhole self.old }
        requires near { IsNear leg }
        ensures end { place_of result ≡ along (direction_of leg.to) leg.long (place_of leg.from) }
        ensures inks { Inks self.old self.new (form_of leg ∷ []) [] }
    {
        match leg.to {
            Direction::East | Direction::West => self.across.add(leg.area()),
            Direction::South | Direction::North => self.down.add(leg.area()),
        }
        leg.end()
    }
}
