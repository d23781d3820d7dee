/// One step of an evaluation. Instances are numbered in order of their start, boxes as in their module.
#[derive(Clone, Copy, PartialEq, Eq, Debug)]
pub enum Event {
    /// A box of an instance fires.
    Fire(u64, u32),
    /// An instance ends.
    End(u64),
}
