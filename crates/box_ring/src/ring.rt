//! The search for a ring.

ghost use Rattle.std.specs.Prelude.{◌≡◌, ◌<◌, ◌⊎◌, ◌↔◌, ℕ, IfOk, IsTrue, MatchOption, Some, length};
ghost use Rattle.two_d.specs.Programs.{module_of};
ghost use Rattle.two_d.specs.Sound.{IsSound, Feeds, Reaches};
ghost use Rattle.box_ring.specs.Rings.{IsRing};

use crate::path::path_to;
use crate::search::{Step, add, feeder_of, no_marks};
use std::alloc::{AllocError, Global};
use two_d::Module;

/// The boxes for which a box of a module waits along its wires, one after the other, back to itself:
/// the box waits for the first of them, each for the next, and the last for the box. There is none
/// where the box doesn't wait for itself. Boxes by number, from 0. Takes time and memory linear in the
/// boxes.
pub fn ring_of(alloc: Global, module: &Module, bx: usize) -> Result<Option<Vec<usize>>, AllocError>
    requires sound { IsSound (module_of module.now) }
    requires within { bx < length (module_of module.now).boxes }
    ensures { IfOk result (λ found. MatchOption found (Reaches (module_of module.now) bx bx → ⊥)
        (λ ring. IsRing (module_of module.now) bx ring.items)) }
{
    let mut seen = no_marks(alloc, module.boxes.len())?;
    let mut found = Vec::new(alloc);
    add(&mut seen, &mut found, Some(bx), 0)?;
    let mut next = 0;
    'wait: while next < found.len() {
        let (north, west) = feeders(module, found[next].bx);
        if is_one(north, west, bx) {
            return Ok(Some(path_to(alloc, &found, next)?));
        }
        add(&mut seen, &mut found, north, next)?;
        add(&mut seen, &mut found, west, next)?;
        next += 1;
    }
    Ok(None)
}

/// The boxes from which the wires to the north and to the west side of a box come, where they come from
/// boxes: those for which it waits.
fn feeders(module: &Module, bx: usize) -> (Option<usize>, Option<usize>)
    requires { bx < length (module_of module.now).boxes }
    ensures { (a : ℕ) → Feeds (module_of module.now) a bx
        ↔ ((result.0 ≡ Some a) ⊎ (result.1 ≡ Some a)) }
{
    let row = &module.boxes[bx];
    (feeder_of(row.n), feeder_of(row.w))
}

/// Whether a box is one of two.
fn is_one(north: Option<usize>, west: Option<usize>, bx: usize) -> bool
    ensures { IsTrue result ↔ ((north ≡ Some bx) ⊎ (west ≡ Some bx)) }
{
    north == Some(bx) || west == Some(bx)
}
