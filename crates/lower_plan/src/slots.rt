ghost use Rattle.std.specs.Prelude.{◌≡◌, ◌<◌, ◌≤◌, IfOk, IfSome};
ghost use Rattle.two_d.specs.Programs.{module_of};
ghost use Rattle.two_d.specs.Sound.{IsSound};
ghost use Rattle.two_d.specs.Weights.{part};
ghost use Rattle.lower_plan.specs.inner.Numbers.{slot_for, end_for, HasPlace, IsBlank, HasSlots, Given};

use std::alloc::Global;
use two_d::{Module, Origin};
use umix_base::Memory;

/// The slots of wires, by where the wires begin, and how many there are.
#[derive(Drop)]
pub(crate) struct Slots {
    pub(crate) north: Option<u32>,
    pub(crate) west: Option<u32>,
    pub(crate) south: Vec<Option<u32>>,
    pub(crate) east: Vec<Option<u32>>,
    pub(crate) count: u32,
}

impl Slots {
    /// No slots yet, for wires from this many boxes.
    fn new(alloc: Global, boxes: usize) -> Result<Slots, Memory>
        ensures { IfOk result (λ slots. IsBlank slots boxes) }
    {
        let south = Vec::from_elem(alloc, None, boxes)?;
        let east = Vec::from_elem(alloc, None, boxes)?;
        Ok(Slots {
            north: None,
            west: None,
            south,
            east,
            count: 0,
        })
    }

    /// The next slot is that of the wire that begins there, if one does.
    fn give(&mut self, end: Option<Origin>)
        requires place { IfSome end (HasPlace self.old) }
        requires few { self.old.count < 1000000 }
        ensures { Given end self.old self.new }
    {
        if let Some(origin) = end {
            let slot = Some(self.count);
            match origin {
                Origin::North => self.north = slot,
                Origin::West => self.west = slot,
                Origin::South(bx) => self.south[bx] = slot,
                Origin::East(bx) => self.east[bx] = slot,
            }
            self.count += 1;
        }
    }

    /// The slot of the wire that begins there, if one does.
    pub(crate) fn at(&self, origin: Origin) -> Option<u32>
        requires { HasPlace self.now origin }
        ensures { result ≡ slot_for self.now origin }
    {
        match origin {
            Origin::North => self.north,
            Origin::West => self.west,
            Origin::South(bx) => self.south[bx],
            Origin::East(bx) => self.east[bx],
        }
    }

    /// The slot of the wire that ends at an input or an exit, if one does.
    pub(crate) fn end(&self, end: Option<Origin>) -> Option<u32>
        requires { IfSome end (HasPlace self.now) }
        ensures { result ≡ end_for self.now end }
    {
        match end {
            None => None,
            Some(origin) => self.at(origin),
        }
    }
}

/// The slots of a module's wires: those that end at boxes first, and then those that end at exits.
pub(crate) fn slots_of(alloc: Global, owner: &Module) -> Result<Slots, Memory>
    requires sound { IsSound (module_of owner.now) }
    requires few { part (module_of owner.now) ≤ 262144 }
    ensures { IfOk result (λ slots. HasSlots (module_of owner.now) slots) }
{
    let mut slots = Slots::new(alloc, owner.boxes.len())?;
    for row in &owner.boxes {
        slots.give(row.n);
        slots.give(row.w);
    }
    for exit in &owner.exits {
        slots.give(*exit);
    }
    Ok(slots)
}
