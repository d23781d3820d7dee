//! What a machine can be made anew from.

/// The parts of a machine, which `Machine::restore` takes by value.
/// See "The parts of a machine" in docs/IMAGES.md.
#[derive(Drop)]
pub struct Saved {
    /// The eight registers.
    pub registers: [u32; 8],
    /// The offset in array 0 that the finger indicates.
    pub finger: u32,
    /// The number of cycles that were made.
    pub cycles: u64,
    /// Whether the machine has halted.
    pub halted: bool,
    /// The number of identifiers that were ever made.
    pub made: u32,
    /// The identifiers abandoned and not reused since, the one abandoned first at the beginning.
    pub abandoned: Vec<u32>,
    /// The words of array 0.
    pub zero: Vec<u32>,
    /// The other arrays by rising identifier, each with its words.
    pub arrays: Vec<(u32, Vec<u32>)>,
}
