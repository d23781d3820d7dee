/// A box of a module, by its number, with the slots of the wires at its north, west, south and
/// east side, where there are wires. See "A block" in docs/COMPILED.md.
#[derive(Clone, Copy, PartialEq, Eq, Debug)]
pub struct PlanStep {
    pub bx: usize,
    pub n: Option<u32>,
    pub w: Option<u32>,
    pub s: Option<u32>,
    pub e: Option<u32>,
}

/// A module, by its number: how many slots its wires have, one each; its boxes in the order of
/// their turns; and the slots of the wires to its exits and from its entries, where there are
/// wires. See "A block" in docs/COMPILED.md.
#[derive(Debug, Drop)]
pub struct Plan {
    pub module: usize,
    pub slots: u32,
    pub steps: Vec<PlanStep>,
    pub exits: Vec<Option<u32>>,
    pub north: Option<u32>,
    pub west: Option<u32>,
}
