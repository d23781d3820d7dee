//! Whether a module is sound.

ghost use Rattle.std.specs.Prelude.{◌≡◌, ℕ, ◌+◌, ◌≤◌, ◌<◌, ◌^◌, ◌↔◌, IsTrue, length, Some, Option};
ghost use Rattle.std.specs.Prelude.{◌⊎◌, All};
ghost use Rattle.two_d.specs.Programs.{module_of};
ghost use Rattle.two_d.specs.Sound.{IsSound, Exists};
ghost use Rattle.two_d.specs.Trees.{tree_of, form_of, depth, outs_of, IsWithin, AreApart};
ghost use Rattle.two_d.specs.inner.Ends.{end_count, origin_at, AreKnown, AreApartFrom};

use crate::{BoxRow, Command, Exp, Module, Origin, Side};

/// Levels of an expression.
const MAX_LEVELS: u32 = 64;

impl Module {
    /// Whether each wire begins at an entry or a box that is there, none begins where another does, each
    /// command can be written, and there are at most 2^32 - 1 boxes and as many exits. Takes no memory.
    pub fn sound(&self) -> bool
        ensures { IsTrue result ↔ IsSound (module_of self.now) }
    {
        if self.boxes.len() >= 1 << 32 {
            return false;
        }
        if self.exits.len() >= 1 << 32 {
            return false;
        }
        if !are_within(&self.boxes) {
            return false;
        }
        if !are_known(self) {
            return false;
        }
        self.name.bytes();
        are_apart(self)
    }
}

/// Whether the commands of boxes can be written.
fn are_within(boxes: &[BoxRow]) -> bool
    ensures { IsTrue result ↔ All (λ row. IsWithin (form_of row.command)) boxes.now }
{
    for row in boxes {
        if !is_within(&row.command) {
            return false;
        }
    }
    true
}

/// Whether a command can be written.
fn is_within(command: &Command) -> bool
    ensures { IsTrue result ↔ IsWithin (form_of command.now) }
{
    match command {
        Command::Send(outs) => { are_shallow(outs) && are_sides_apart(outs) }
        Command::Case(value, _, _) => is_shallow(value, MAX_LEVELS),
        Command::Split(value) => is_shallow(value, MAX_LEVELS),
        Command::Call(name) => {
            name.bytes();
            true
        }
    }
}

/// Whether the expressions have at most 64 levels.
fn are_shallow(outs: &[(Exp, Side)]) -> bool
    ensures { IsTrue result ↔ All (λ out. depth (tree_of out.0) ≤ 64) outs.now }
{
    for out in outs {
        if !is_shallow(&out.0, MAX_LEVELS) {
            return false;
        }
    }
    true
}

/// Whether an expression has at most so many levels.
fn is_shallow(value: &Exp, levels: u32) -> bool
    ensures { IsTrue result ↔ (depth (tree_of value.now) ≤ levels) }
{
    match value {
        Exp::N | Exp::W => true,
        Exp::Unit => levels >= 1,
        Exp::Pair(first, second) => {
            levels >= 1 && is_shallow(first, levels - 1) && is_shallow(second, levels - 1)
        }
        Exp::Inl(inner) => levels >= 1 && is_shallow(inner, levels - 1),
        Exp::Inr(inner) => levels >= 1 && is_shallow(inner, levels - 1),
    }
}

/// Whether there are at most two, and two go to different sides.
fn are_sides_apart(outs: &[(Exp, Side)]) -> bool
    ensures { IsTrue result ↔ AreApart (outs_of outs.now) }
{
    match outs {
        [] => true,
        [_] => true,
        [first, second] => first.1 != second.1,
        _ => false,
    }
}

/// How many ends a module has for wires.
fn end_count(module: &Module) -> usize
    requires boxes { length module.now.boxes.items < 2 ^ 32 }
    requires exits { length module.now.exits.items < 2 ^ 32 }
    ensures { result ≡ end_count (module_of module.now) }
{
    module.boxes.len() + module.boxes.len() + module.exits.len()
}

/// From where the wire to an end comes: first the north sides, then the west sides, then the exits.
fn origin_at(module: &Module, end: usize) -> Option<Origin>
    requires boxes { length module.now.boxes.items < 2 ^ 32 }
    requires exits { length module.now.exits.items < 2 ^ 32 }
    requires within { end < end_count (module_of module.now) }
    ensures { result ≡ origin_at (module_of module.now) end }
{
    let boxes = module.boxes.len();
    if end < boxes {
        module.boxes[end].n
    } else if end < boxes + boxes {
        module.boxes[end - boxes].w
    } else {
        module.exits[end - boxes - boxes]
    }
}

/// Whether an entry or a box is there.
fn exists(module: &Module, origin: Origin) -> bool
    ensures { IsTrue result ↔ Exists (module_of module.now) origin }
{
    match origin {
        Origin::North => module.north,
        Origin::West => module.west,
        Origin::South(number) => number < module.boxes.len(),
        Origin::East(number) => number < module.boxes.len(),
    }
}

/// Whether each wire begins at an entry or a box that is there.
fn are_known(module: &Module) -> bool
    requires boxes { length module.now.boxes.items < 2 ^ 32 }
    requires exits { length module.now.exits.items < 2 ^ 32 }
    ensures { IsTrue result ↔ AreKnown (module_of module.now) (end_count (module_of module.now)) }
{
    for end in 0..end_count(module) {
        if let Some(origin) = origin_at(module, end) {
            if !exists(module, origin) {
                return false;
            }
        }
    }
    true
}

/// Whether no wire begins where another does.
fn are_apart(module: &Module) -> bool
    requires boxes { length module.now.boxes.items < 2 ^ 32 }
    requires exits { length module.now.exits.items < 2 ^ 32 }
    ensures { IsTrue result ↔ ((end : ℕ) → end < end_count (module_of module.now) →
        AreApartFrom (module_of module.now) end end) }
{
    for end in 0..end_count(module) {
        if !is_apart(module, end) {
            return false;
        }
    }
    true
}

/// Whether the wire to an end begins where none to an earlier end does.
fn is_apart(module: &Module, end: usize) -> bool
    requires boxes { length module.now.boxes.items < 2 ^ 32 }
    requires exits { length module.now.exits.items < 2 ^ 32 }
    requires within { end < end_count (module_of module.now) }
    ensures { IsTrue result ↔ AreApartFrom (module_of module.now) end end }
{
    let Some(origin) = origin_at(module, end) else {
        return true;
    };
    for earlier in 0..end {
        if begins_at(module, earlier, origin) {
            return false;
        }
    }
    true
}

/// Whether the wire to an end begins there.
fn begins_at(module: &Module, end: usize, origin: Origin) -> bool
    requires boxes { length module.now.boxes.items < 2 ^ 32 }
    requires exits { length module.now.exits.items < 2 ^ 32 }
    requires within { end < end_count (module_of module.now) }
    ensures { IsTrue result ↔ (origin_at (module_of module.now) end ≡ Some origin) }
{
    match origin_at(module, end) {
        Some(other) => is_same(other, origin),
        None => false,
    }
}

fn is_same(one: Origin, other: Origin) -> bool
    ensures { IsTrue result ↔ (one ≡ other) }
{
    match (one, other) {
        (Origin::North, Origin::North) => true,
        (Origin::West, Origin::West) => true,
        (Origin::South(first), Origin::South(second)) => first == second,
        (Origin::East(first), Origin::East(second)) => first == second,
        _ => false,
    }
}
