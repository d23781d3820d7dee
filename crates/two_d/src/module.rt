use crate::{Command, Name};

/// Where a wire of a module begins.
#[derive(Clone, Copy, PartialEq, Eq, Debug)]
pub enum Origin {
    /// The entry in the north.
    North,
    /// The entry in the west.
    West,
    /// The south side of a box.
    South(usize),
    /// The east side of a box.
    East(usize),
}

/// Where a wire of a module ends.
#[derive(Clone, Copy, PartialEq, Eq, Debug)]
pub enum To {
    /// The north side of a box.
    N(usize),
    /// The west side of a box.
    W(usize),
    /// An exit.
    Exit(usize),
}

/// A box: its command, and from where the wires to its north and its west side come.
#[derive(Debug, Drop)]
pub struct BoxRow {
    pub command: Command,
    pub n: Option<Origin>,
    pub w: Option<Origin>,
}

/// A module: its name, which entries it has, its boxes, and from where the wires to its exits come.
#[derive(Debug, Drop)]
pub struct Module {
    pub name: Name,
    pub north: bool,
    pub west: bool,
    pub boxes: Vec<BoxRow>,
    pub exits: Vec<Option<Origin>>,
}
