/// One node of a value. Its parts are places of the store, counted from 0.
#[derive(Clone, Copy, PartialEq, Eq, Hash, Debug)]
pub enum Shape {
    /// `()`
    Unit,
    /// `(a,b)`, the left part first.
    Pair(usize, usize),
    /// `Inl a`
    Inl(usize),
    /// `Inr a`
    Inr(usize),
}
