//! The kept order of a module's boxes.

ghost use Rattle.std.specs.Prelude.{◌≡◌, ℕ, ◌+◌, ◌<◌, ◌↔◌, ◌⊎◌, IsTrue, IfOk, OnOk, IfSome, IfNone};
ghost use Rattle.std.specs.Prelude.{length, replicate, slice_index_or, false, None, Some};
ghost use Rattle.two_d.specs.inner.Orders.{Has, TakesLeast, IsFrom, IsFromBelow, AreFed};
ghost use Rattle.two_d.specs.inner.Orders.{AreTargets, noted, north_at, west_at};
ghost use Rattle.two_d.specs.Programs.{module_of};
ghost use Rattle.two_d.specs.Sound.{IsSound, Reaches, IsKeptOrder};

use crate::{Module, Origin, Side};
use std::alloc::{AllocError, Global};
use std::collections::BTreeSet;

/// The kept order of a module's boxes, or `None` where some box reaches itself. Takes n log n steps for
/// n boxes.
pub(crate) fn kept_order(alloc: Global, module: &Module) -> Result<Option<Vec<usize>>, AllocError>
    requires { IsSound (module_of module.now) }
    ensures order { IfOk result (λ found. IfSome found (λ order. IsKeptOrder (module_of module.now) order.items)) }
    ensures ring { IfOk result (λ found. IfNone found (((b : ℕ) → Reaches (module_of module.now) b b → ⊥) → ⊥)) }
{
    let souths = targets(alloc, module, Side::S)?;
    let easts = targets(alloc, module, Side::E)?;
    let mut placed = no_marks(alloc, module.boxes.len())?;
    let mut ready = first_ready(alloc, module, &placed)?;
    let mut order = Vec::new(alloc);
    'place: while order.len() < module.boxes.len() {
        let Some(next) = take_least(&mut ready) else {
            return Ok(None);
        };
        placed[next] = true;
        order.push(next)?;
        offer(module, &placed, &mut ready, target_of(&souths, next))?;
        offer(module, &placed, &mut ready, target_of(&easts, next))?;
    }
    Ok(Some(order))
}

pub(crate) fn no_marks(alloc: Global, count: usize) -> Result<Vec<bool>, AllocError>
    ensures { IfOk result (λ marks. marks.items ≡ replicate count false) }
{
    let marks = vec![in alloc; false; count]?;
    Ok(marks)
}

/// The boxes that could stand first.
fn first_ready(
    alloc: Global,
    module: &Module,
    placed: &[bool],
) -> Result<BTreeSet<usize>, AllocError>
    requires sound { IsSound (module_of module.now) }
    requires marks { length placed.now ≡ length (module_of module.now).boxes }
    ensures { IfOk result (λ ready. (q : ℕ) →
        Has ready q ↔ ((q < length (module_of module.now).boxes) ×
        AreFed (module_of module.now) placed.now q)) }
{
    let mut ready = BTreeSet::new(alloc);
    for number in 0..module.boxes.len() {
        offer(module, placed, &mut ready, Some(number))?;
    }
    Ok(ready)
}

/// Notes a box as one that can stand next, if there is one and what feeds it is placed.
fn offer(
    module: &Module,
    placed: &[bool],
    ready: &mut BTreeSet<usize>,
    number: Option<usize>,
) -> Result<(), AllocError>
    requires sound { IsSound (module_of module.now) }
    requires marks { length placed.now ≡ length (module_of module.now).boxes }
    requires within { IfSome number (λ b. b < length (module_of module.now).boxes) }
    ensures { OnOk result ((q : ℕ) →
        Has ready.new q ↔ (Has ready.old q ⊎
        ((number ≡ Some q) × AreFed (module_of module.now) placed.now q))) }
{
    let Some(number) = number else {
        return Ok(());
    };
    if !is_fed(module, placed, number) {
        return Ok(());
    }
    put(ready, number)?;
    Ok(())
}

/// Whether all that feed a box are placed.
fn is_fed(module: &Module, placed: &[bool], number: usize) -> bool
    requires sound { IsSound (module_of module.now) }
    requires marks { length placed.now ≡ length (module_of module.now).boxes }
    requires within { number < length (module_of module.now).boxes }
    ensures { IsTrue result ↔ AreFed (module_of module.now) placed.now number }
{
    is_from(placed, north_of(module, number)) && is_from(placed, west_of(module, number))
}

/// Whether a wire comes from no box, or from one that is placed.
fn is_from(placed: &[bool], origin: Option<Origin>) -> bool
    requires { IsFromBelow (length placed.now) origin }
    ensures { IsTrue result ↔ IsFrom placed.now origin }
{
    match origin {
        None | Some(Origin::North) | Some(Origin::West) => true,
        Some(Origin::South(number)) => placed[number],
        Some(Origin::East(number)) => placed[number],
    }
}

/// For each box the box to which the wire from its side leads.
pub(crate) fn targets(
    alloc: Global,
    module: &Module,
    side: Side,
) -> Result<Vec<Option<usize>>, AllocError>
    requires { IsSound (module_of module.now) }
    ensures { IfOk result (λ targets.
        AreTargets (module_of module.now) side (length (module_of module.now).boxes)
        (length (module_of module.now).boxes) targets.items) }
{
    let mut targets = no_targets(alloc, module.boxes.len())?;
    for number in 0..module.boxes.len() {
        note(&mut targets, side, north_of(module, number), number);
        note(&mut targets, side, west_of(module, number), number);
    }
    Ok(targets)
}

/// The box to which the wire from a side of a box leads.
pub(crate) fn target_of(targets: &[Option<usize>], number: usize) -> Option<usize>
    requires { number < length targets.now }
    ensures { result ≡ slice_index_or targets.now number None }
{
    targets[number]
}

fn no_targets(alloc: Global, count: usize) -> Result<Vec<Option<usize>>, AllocError>
    ensures { IfOk result (λ targets. targets.items ≡ replicate count None) }
{
    let targets = vec![in alloc; None; count]?;
    Ok(targets)
}

/// Notes that a wire that begins there leads to a box.
fn note(targets: &mut Vec<Option<usize>>, side: Side, origin: Option<Origin>, number: usize)
    requires { IsFromBelow (length targets.old.items) origin }
    ensures { targets.new.items ≡ noted side origin number targets.old.items }
{
    match (side, origin) {
        (Side::S, Some(Origin::South(start))) => targets[start] = Some(number),
        (Side::E, Some(Origin::East(start))) => targets[start] = Some(number),
        _ => {}
    }
}

/// From where the wire to the north side of a box comes.
fn north_of(module: &Module, number: usize) -> Option<Origin>
    requires { number < length (module_of module.now).boxes }
    ensures { result ≡ north_at (module_of module.now) number }
{
    module.boxes[number].n
}

/// From where the wire to the west side of a box comes.
fn west_of(module: &Module, number: usize) -> Option<Origin>
    requires { number < length (module_of module.now).boxes }
    ensures { result ≡ west_at (module_of module.now) number }
{
    module.boxes[number].w
}

fn take_least(set: &mut BTreeSet<usize>) -> Option<usize>
    ensures { TakesLeast (Has set.old) (Has set.new) result }
{
    set.pop_first()
}

fn put(set: &mut BTreeSet<usize>, number: usize) -> Result<(), AllocError>
    ensures { OnOk result ((q : ℕ) → Has set.new q ↔ (Has set.old q ⊎ (q ≡ number))) }
{
    match set.insert(number) {
        Ok(_) => Ok(()),
        Err(_) => Err(AllocError),
    }
}
