/// How much a machine may hold at one time.
#[derive(Clone, Copy, PartialEq, Eq, Debug)]
pub struct Limits {
    /// Live arrays, without array 0.
    pub arrays: u64,
    /// Live words, with those of array 0.
    pub words: u64,
}
