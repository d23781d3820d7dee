/// What an evaluation has come to. The places are those of a value store and of a trail store.
#[derive(Clone, Copy, PartialEq, Eq, Debug)]
pub enum Outcome {
    /// A value.
    Value(usize),
    /// Nothing, and the trail says where.
    Stuck(usize),
}
