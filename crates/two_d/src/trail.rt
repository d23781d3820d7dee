/// Where an instance is stuck: modules and boxes by number, from 0.
#[derive(Clone, Copy, PartialEq, Eq, Debug)]
pub enum Site {
    /// The box is a `case` of a value that is no sum.
    NoSum(usize, usize),
    /// The box is a `split` of a value that is no pair.
    NoPair(usize, usize),
    /// No exit of the module carries a value.
    NoResult(usize),
    /// Two exits of the module or more carry one.
    TwoResults(usize),
}

/// One node of a trail. The inner trail is a place of the store, counted from 0.
#[derive(Clone, Copy, PartialEq, Eq, Debug)]
pub enum Trail {
    /// The site alone.
    At(Site),
    /// The module, its box, and the trail that gets this box as one more caller.
    Via(usize, usize, usize),
}
