ghost use Rattle.std.specs.Prelude.{◌≡◌, ◌≤◌, ◌<◌, ◌++◌, ◌∷◌, [], ◌↔◌, IsTrue, OnOk, MatchOption};
ghost use Rattle.std.specs.Prelude.{Some, None, option_map, ◌⊎◌, ◌+◌, ◌^◌};
ghost use Rattle.two_d.specs.Places.{Within};
ghost use Rattle.grid_reader.specs.inner.Rects.{rect_shown};
ghost use Rattle.grid_reader.specs.inner.Found.{figures, lowest, HasLow, LaysIn, IsInside, AgreeOutside};

use crate::rect::Rect;
use std::alloc::{AllocError, Global};
use umix_base::{Memory, Place};

/// Figures that were found in reading order, no two of which share a cell.
#[derive(Debug, Drop)]
pub struct Found {
    /// The figures, in the order of their corners.
    pub figures: Vec<Rect>,
    /// For each column, from `first` on, the figure in it that reaches lowest.
    pub lowest: Vec<Option<Rect>>,
    /// The first column of all figures.
    pub first: u32,
}

impl Found {
    /// No figure, of those from a column on.
    pub fn new(alloc: Global, first: u32) -> Found
        ensures figures { result.figures.items ≡ [] }
        ensures lowest { result.lowest.items ≡ [] }
        ensures first { result.first ≡ first }
    {
        Found {
            figures: Vec::new(alloc),
            lowest: Vec::new(alloc),
            first,
        }
    }

    /// Whether the lowest figure in the place's column has the place strictly within it.
    pub fn has_within(&self, at: Place) -> bool
        requires { self.now.first ≤ at.col }
        ensures { IsTrue result ↔ MatchOption (lowest self.now at.col) ⊥ (λ f. Within f at) }
    {
        match self.lowest_in(at.col) {
            Some(figure) => figure.has_within(at),
            None => false,
        }
    }

    /// Whether the lowest figure in some column of a figure reaches down to its top.
    pub fn has_low(&self, figure: &Rect) -> bool
        requires first { self.now.first ≤ figure.now.left }
        requires last { figure.now.right + 1 < 2 ^ 32 }
        ensures { IsTrue result ↔ HasLow (lowest self.now) (rect_shown figure.now) }
    {
        for col in figure.left..figure.right + 1 {
            if let Some(other) = self.lowest_in(col)
                && figure.top <= other.bottom
            {
                return true;
            }
        }
        false
    }

    /// Adds a figure, which becomes the lowest one in its columns.
    pub fn add(&mut self, figure: Rect) -> Result<(), Memory>
        requires first { self.old.first ≤ figure.left }
        requires wide { figure.left ≤ figure.right }
        ensures figures { OnOk result (figures self.new ≡ figures self.old ++ rect_shown figure ∷ []) }
        ensures lowest { OnOk result (LaysIn self.old self.new (rect_shown figure)) }
        ensures first { OnOk result (self.new.first ≡ self.old.first) }
    {
        let from = (figure.left - self.first) as usize;
        let to = (figure.right - self.first) as usize;
        lay(&mut self.lowest, from, to, figure)?;
        self.figures.push(figure)?;
        Ok(())
    }

    fn lowest_in(&self, col: u32) -> Option<Rect>
        requires { self.now.first ≤ col }
        ensures { option_map rect_shown result ≡ lowest self.now col }
    {
        self.lowest
            .get((col - self.first) as usize)
            .copied()
            .flatten()
    }
}

/// Puts a figure into the columns of a table from one to another.
fn lay(
    columns: &mut Vec<Option<Rect>>,
    from: usize,
    to: usize,
    figure: Rect,
) -> Result<(), AllocError>
    requires ordered { from ≤ to }
    requires few { to < 2 ^ 32 }
    ensures inside { OnOk result (IsInside from to figure columns.new.items) }
    ensures outside { OnOk result (AgreeOutside from to columns.old.items columns.new.items) }
{
    if columns.len() <= to {
        columns.resize(to + 1, None)?;
    }
    'columns: for column in from..to + 1 {
        columns[column] = Some(figure);
    }
    Ok(())
}
