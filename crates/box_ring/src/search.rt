//! The boxes that were found from a box, against the wires.

ghost use Rattle.std.specs.Prelude.{◌≡◌, ◌<◌, OnOk, IfOk, IfSome, length, replicate, false};
ghost use Rattle.box_ring.specs.inner.Steps.{AddsStep, feeder_in};

use std::alloc::{AllocError, Global};
use two_d::Origin;

/// A box that was found, and among those that were found the place of the one that waits for it.
#[derive(Clone, Copy)]
pub(crate) struct Step {
    pub(crate) bx: usize,
    pub(crate) via: usize,
}

/// A mark for each of so many boxes, none of which is set.
pub(crate) fn no_marks(alloc: Global, count: usize) -> Result<Vec<bool>, AllocError>
    ensures { IfOk result (λ marks. marks.items ≡ replicate count false) }
{
    let marks = vec![in alloc; false; count]?;
    Ok(marks)
}

/// The box at which a wire begins, if it does at one.
pub(crate) fn feeder_of(origin: Option<Origin>) -> Option<usize>
    ensures { result ≡ feeder_in origin }
{
    match origin {
        None | Some(Origin::North) | Some(Origin::West) => None,
        Some(Origin::South(bx)) | Some(Origin::East(bx)) => Some(bx),
    }
}

/// Adds a box that the one at a place waits for, if there is one and it wasn't found.
pub(crate) fn add(
    seen: &mut Vec<bool>,
    found: &mut Vec<Step>,
    bx: Option<usize>,
    via: usize,
) -> Result<(), AllocError>
    requires { IfSome bx (λ b. b < length seen.old.items) }
    ensures { OnOk result (AddsStep seen.old.items found.old.items bx via
        seen.new.items found.new.items) }
{
    let Some(bx) = bx else {
        return Ok(());
    };
    if seen[bx] {
        return Ok(());
    }
    seen[bx] = true;
    found.push(Step { bx, via })?;
    Ok(())
}
