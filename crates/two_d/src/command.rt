use crate::Name;

/// A side of a box on which a value leaves it.
#[derive(Clone, Copy, PartialEq, Eq, Debug)]
pub enum Side {
    /// South.
    S,
    /// East.
    E,
}

/// An expression over the inputs of a box.
#[derive(Debug, Drop)]
pub enum Exp {
    /// `()`
    Unit,
    /// `(exp,exp)`
    Pair(Box<Exp>, Box<Exp>),
    /// `Inl exp`
    Inl(Box<Exp>),
    /// `Inr exp`
    Inr(Box<Exp>),
    /// The value that comes from the north.
    N,
    /// The value that comes from the west.
    W,
}

/// The command of a box. Its texts and its canonical text: docs/GRID.md, "Commands".
#[derive(Debug, Drop)]
pub enum Command {
    /// Sends each value to its side: none, one or two values, two of them to two sides.
    Send(Vec<(Exp, Side)>),
    /// Sends the content of an `Inl` to the first side, that of an `Inr` to the second.
    Case(Exp, Side, Side),
    /// Sends the first part of a pair south, and the second east.
    Split(Exp),
    /// Uses the module of this name.
    Call(Name),
}
