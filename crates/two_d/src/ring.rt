//! Boxes that reach themselves.

ghost use Rattle.std.specs.Prelude.{◌≡◌, ℕ, ◌<◌, ◌↔◌, IsTrue, IfOk, OnOk, IfSome, length};
ghost use Rattle.two_d.specs.inner.Orders.{AddsBox, AreTargets};
ghost use Rattle.two_d.specs.Places.{IsLeast};
ghost use Rattle.two_d.specs.Programs.{module_of};
ghost use Rattle.two_d.specs.Sound.{IsSound, Reaches};
ghost use Rattle.two_d.specs.declared.command.Side.TheVariants.{S, E};

use crate::order::{no_marks, target_of, targets};
use crate::{Module, Side};
use std::alloc::{AllocError, Global};

/// The first box of a module that reaches itself. Takes n steps for each box up to it, of n boxes.
pub(crate) fn first_in_ring(alloc: Global, module: &Module) -> Result<usize, AllocError>
    requires sound { IsSound (module_of module.now) }
    requires ring { ((b : ℕ) → Reaches (module_of module.now) b b → ⊥) → ⊥ }
    ensures { IfOk result (IsLeast (λ b. Reaches (module_of module.now) b b)) }
{
    let souths = targets(alloc, module, Side::S)?;
    let easts = targets(alloc, module, Side::E)?;
    for number in 0..module.boxes.len() {
        if reaches_itself(alloc, module, &souths, &easts, number)? {
            return Ok(number);
        }
    }
    unreachable!()
}

/// Whether a box reaches itself.
fn reaches_itself(
    alloc: Global,
    module: &Module,
    souths: &[Option<usize>],
    easts: &[Option<usize>],
    start: usize,
) -> Result<bool, AllocError>
    requires souths { AreTargets (module_of module.now) S (length (module_of module.now).boxes)
        (length (module_of module.now).boxes) souths.now }
    requires easts { AreTargets (module_of module.now) E (length (module_of module.now).boxes)
        (length (module_of module.now).boxes) easts.now }
    requires within { start < length (module_of module.now).boxes }
    ensures { IfOk result (λ reaches. IsTrue reaches ↔ Reaches (module_of module.now) start start) }
{
    let mut seen = no_marks(alloc, module.boxes.len())?;
    let mut found = Vec::new(alloc);
    add(&mut seen, &mut found, target_of(souths, start))?;
    add(&mut seen, &mut found, target_of(easts, start))?;
    let mut next = 0;
    'follow: while next < found.len() {
        let number = found[next];
        add(&mut seen, &mut found, target_of(souths, number))?;
        add(&mut seen, &mut found, target_of(easts, number))?;
        next += 1;
    }
    Ok(seen[start])
}

/// Adds a box to those that were found, if there is one and it wasn't.
fn add(
    seen: &mut Vec<bool>,
    found: &mut Vec<usize>,
    number: Option<usize>,
) -> Result<(), AllocError>
    requires { IfSome number (λ b. b < length seen.old.items) }
    ensures { OnOk result (AddsBox seen.old.items found.old.items number seen.new.items found.new.items) }
{
    let Some(number) = number else {
        return Ok(());
    };
    if seen[number] {
        return Ok(());
    }
    seen[number] = true;
    found.push(number)?;
    Ok(())
}
