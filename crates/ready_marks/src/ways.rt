//! Where the wires of a module lead to: the way back from what `Origin` tells.

ghost use Rattle.std.specs.Prelude.{◌≡◌, ◌<◌, ◌≤◌, ◌⊎◌, ℕ, Option, Some, None, IfOk, length};
ghost use Rattle.std.specs.Prelude.{slice_index_or};
ghost use Rattle.two_d.specs.Programs.{module_of};
ghost use Rattle.two_d.specs.Sound.{IsSound};
ghost use Rattle.ready_marks.specs.Ways.{AreWaysOf, ways_form};
ghost use Rattle.ready_marks.specs.inner.Noted.{IsWithin, lead_to};

use std::alloc::Global;
use two_d::{Module, Origin};
use umix_base::Memory;

/// For each box of a module the box at the end of the wire from its south side and from its east side.
#[derive(Drop)]
pub struct Ways {
    pub south: Vec<Option<usize>>,
    pub east: Vec<Option<usize>>,
}

/// The ways of each module.
pub fn all_ways(alloc: Global, modules: &[Module]) -> Result<Vec<Ways>, Memory>
    requires { (m : ℕ) (d : Module) → m < length modules.now → IsSound (module_of (slice_index_or modules.now m d)) }
    ensures sized { IfOk result (λ all. length all.items ≡ length modules.now) }
    ensures each { IfOk result (λ all. (m : ℕ) (d : Module) (w : Ways) → m < length modules.now
        → AreWaysOf (module_of (slice_index_or modules.now m d)) (ways_form (slice_index_or all.items m w))) }
{
    let mut all = Vec::new(alloc);
    for m in 0..modules.len() {
        let ways = ways_of(alloc, &modules[m])?;
        all.push(ways)?;
    }
    Ok(all)
}

/// The ways of a module.
fn ways_of(alloc: Global, module: &Module) -> Result<Ways, Memory>
    requires { IsSound (module_of «module».now) }
    ensures { IfOk result (λ ways. AreWaysOf (module_of «module».now) (ways_form ways)) }
{
    let boxes = &module.boxes;
    let mut ways = Ways {
        south: vec![in alloc; None; boxes.len()]?,
        east: vec![in alloc; None; boxes.len()]?,
    };
    for bx in 0..boxes.len() {
        let row = &boxes[bx];
        lead(&mut ways, row.n, bx);
        lead(&mut ways, row.w, bx);
    }
    Ok(ways)
}

/// A wire leads to a box.
fn lead(ways: &mut Ways, origin: Option<Origin>, bx: usize)
    requires { IsWithin (ways_form ways.old) origin }
    ensures { ways_form ways.new ≡ lead_to (ways_form ways.old) origin bx }
{
    match origin {
        Some(Origin::South(from)) => ways.south[from] = Some(bx),
        Some(Origin::East(from)) => ways.east[from] = Some(bx),
        _ => {}
    }
}
