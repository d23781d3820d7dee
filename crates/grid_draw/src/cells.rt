ghost use Rattle.std.specs.Prelude.{◌≡◌, ◌<◌, ◌*◌, ◌^◌, ℕ, IfOk, false};
ghost use Rattle.grid_draw.specs.inner.Sets.{has, is_in, is_in_row, is_at, IsSized, Gains};

use std::alloc::{AllocError, Global};

/// The cells in rows from `top` on, before `bottom`, and in columns from `left` on, before `right`.
#[derive(Clone, Copy, Debug)]
pub struct Area {
    pub top: usize,
    pub bottom: usize,
    pub left: usize,
    pub right: usize,
}

/// A set of cells of a drawing.
#[derive(Drop)]
pub struct CellSet {
    rows: usize,
    columns: usize,
    // Whether a cell is one of them, row by row.
    marked: Vec<bool>,
}

impl CellSet {
    /// No cell.
    pub fn new(alloc: Global, rows: usize, columns: usize) -> Result<CellSet, AllocError>
        requires { rows * columns < 2 ^ 64 }
        ensures sized { IfOk result (IsSized rows columns) }
        ensures none { IfOk result (λ set. (r : ℕ) (c : ℕ) → has set r c ≡ false) }
    {
        Ok(CellSet {
            rows,
            columns,
            marked: vec![in alloc; false; rows * columns]?,
        })
    }

    /// Whether a cell is one of the set.
    pub fn has(&self, row: usize, col: usize) -> bool
        requires sized { IsSized self.now.rows self.now.columns self.now }
        requires row { row < self.now.rows }
        requires col { col < self.now.columns }
        ensures { result ≡ has self.now row col }
    {
        self.marked[row * self.columns + col]
    }

    /// Adds the cells of an area.
    pub fn add(&mut self, area: Area)
        requires { IsSized self.old.rows self.old.columns self.old }
        ensures { Gains self.old self.new (is_in area) }
    {
        for row in area.top..area.bottom.min(self.rows) {
            self.add_row(row, area.left, area.right);
        }
    }

    /// Adds the cells of a row from column `left` on, before column `right`.
    fn add_row(&mut self, row: usize, left: usize, right: usize)
        requires sized { IsSized self.old.rows self.old.columns self.old }
        requires row { row < self.old.rows }
        ensures { Gains self.old self.new (is_in_row row left right) }
    {
        for col in left..right.min(self.columns) {
            self.add_cell(row, col);
        }
    }

    fn add_cell(&mut self, row: usize, col: usize)
        requires sized { IsSized self.old.rows self.old.columns self.old }
        requires row { row < self.old.rows }
        requires col { col < self.old.columns }
        ensures { Gains self.old self.new (is_at row col) }
    {
        self.marked[row * self.columns + col] = true;
    }
}
