//! What the lines of a sheet say.

use two_d::{Name, Side};

/// What the values of a declared type are.
#[derive(Debug, Drop)]
pub enum Form {
    /// The unit.
    Unit,
    /// The pairs of two types.
    Pair(Name, Name),
    /// `Inl` of the first type and `Inr` of the second.
    Sum(Name, Name),
}

/// A line. A box counts from 1, as it is written.
#[derive(Debug, Drop)]
pub enum Line {
    /// `type A = ..`
    Kind(Name, Form),
    /// `module M n A w B e C`: the types of the entries that the module has, and of its result.
    Module(Name, Option<Name>, Option<Name>, Name),
    /// `wire M K S A` or `wire M K E A`: what the wire from that side of a box carries.
    Wire(Name, u32, Side, Name),
    /// `of M K A`: the type of the expression of a `case` or a `split`.
    Of(Name, u32, Name),
}

/// A line of a sheet that isn't empty, with its number from 1.
#[derive(Debug, Drop)]
pub struct SheetRow {
    pub at: usize,
    pub line: Line,
}
