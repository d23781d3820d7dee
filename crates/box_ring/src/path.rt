//! The way from a box to one that was found from it.

ghost use Rattle.std.specs.Prelude.{◌<◌, IfOk, length};
ghost use Rattle.two_d.specs.Programs.{ModuleForm};
ghost use Rattle.two_d.specs.Sound.{Feeds};
ghost use Rattle.box_ring.specs.Rings.{WaitsAlong};
ghost use Rattle.box_ring.specs.inner.Steps.{AreBack, AreFed, box_of_step};

use crate::search::Step;
use std::alloc::{AllocError, Global};

/// The boxes on the way from the first box that was found to the one at a place, without the first.
pub(crate) fn path_to(alloc: Global, found: &[Step], place: usize) -> Result<Vec<usize>, AllocError>
    requires within { place < length found.now }
    requires back { AreBack found.now }
    ensures { (m : ModuleForm) → AreFed m found.now → Feeds m (box_of_step found.now 0)
        (box_of_step found.now place)
        → IfOk result (λ path. WaitsAlong m (box_of_step found.now 0) path.items
        (box_of_step found.now 0)) }
{
    let mut path = Vec::new(alloc);
    let mut at = place;
    'back: while at != 0 {
        let step = found[at];
        path.push(step.bx)?;
        at = step.via;
    }
    path.reverse();
    Ok(path)
}
