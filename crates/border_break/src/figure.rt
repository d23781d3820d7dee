//! What has a border, and where one breaks.

use umix_base::Place;

/// What has a border.
#[derive(Clone, Copy, PartialEq, Eq, Debug)]
pub enum Figure {
    /// A module's frame.
    Frame,
    /// A box.
    Box,
}

/// A side of a border, with the corner at its end.
#[derive(Clone, Copy, PartialEq, Eq, Debug)]
pub enum Side {
    /// From the upper left corner to the upper right one.
    Top,
    /// From the upper left corner to the lower left one.
    Left,
    /// From the lower left corner to the lower right one.
    Bottom,
    /// Between the right corners.
    Right,
}

/// Where a border breaks.
#[derive(Clone, Copy, PartialEq, Eq, Debug)]
pub struct Break {
    /// The side that breaks.
    pub side: Side,
    /// The cell, by its row and column, from 1: it may stand right behind the last row, or right of
    /// the widest one.
    pub place: Place,
}
