//! The sides from which wires begin.

ghost use Rattle.std.specs.Prelude.{◌≡◌, ℕ, ◌<◌, ◌||◌, IfOk, false, length, replicate};
ghost use Rattle.std.specs.List.{list_any};
ghost use Rattle.two_d.specs.declared.command.Side.{Side as SideForm};
ghost use Rattle.two_d.specs.Programs.{module_of};
ghost use Rattle.type_sheet.specs.Wires.{is_from, origin_of};
ghost use Rattle.type_sheet.specs.inner.Carried.{leads, mark_of, IsWiredOf};

use std::alloc::{AllocError, Global};
use two_d::{BoxRow, Module, Origin, Side};

/// For each box of a module, whether a wire begins at its south side, and at its east side.
#[derive(Drop)]
pub(crate) struct Wired {
    souths: Vec<bool>,
    easts: Vec<bool>,
}

impl Wired {
    /// Linear in the boxes and exits.
    pub(crate) fn of(alloc: Global, module: &Module) -> Result<Wired, AllocError>
        ensures { IfOk result (λ wired. IsWiredOf wired (module_of «module».now)) }
    {
        let mut wired = unmarked(alloc, module.boxes.len())?;
        wired.mark_rows(&module.boxes);
        wired.mark_exits(&module.exits);
        Ok(wired)
    }

    /// Marks where the wires to boxes begin.
    fn mark_rows(&mut self, rows: &[BoxRow])
        ensures souths { length self.new.souths.items ≡ length self.old.souths.items }
        ensures easts { length self.new.easts.items ≡ length self.old.easts.items }
        ensures marks { (b : ℕ) (side : SideForm) → b < length self.old.souths.items →
            b < length self.old.easts.items
            → mark_of self.new b side
            ≡ (mark_of self.old b side || list_any (leads (origin_of b side)) rows.now) }
    {
        for row in rows {
            self.mark(row.n);
            self.mark(row.w);
        }
    }

    /// Marks where the wires to exits begin.
    fn mark_exits(&mut self, exits: &[Option<Origin>])
        ensures souths { length self.new.souths.items ≡ length self.old.souths.items }
        ensures easts { length self.new.easts.items ≡ length self.old.easts.items }
        ensures marks { (b : ℕ) (side : SideForm) → b < length self.old.souths.items →
            b < length self.old.easts.items
            → mark_of self.new b side
            ≡ (mark_of self.old b side || list_any (is_from (origin_of b side)) exits.now) }
    {
        for exit in exits {
            self.mark(*exit);
        }
    }

    /// Marks where a wire begins.
    fn mark(&mut self, origin: Option<Origin>)
        ensures souths { length self.new.souths.items ≡ length self.old.souths.items }
        ensures easts { length self.new.easts.items ≡ length self.old.easts.items }
        ensures marks { (b : ℕ) (side : SideForm) → b < length self.old.souths.items →
            b < length self.old.easts.items → mark_of self.new b side
            ≡ (mark_of self.old b side || is_from (origin_of b side) origin) }
    {
        match origin {
            Some(Origin::South(bx)) if bx < self.souths.len() => self.souths[bx] = true,
            Some(Origin::East(bx)) if bx < self.easts.len() => self.easts[bx] = true,
            _ => {}
        }
    }

    /// Whether a wire begins at a side of a box.
    pub(crate) fn has(&self, bx: usize, side: Side) -> bool
        ensures { result ≡ mark_of self.now bx side }
    {
        match side {
            Side::S => bx < self.souths.len() && self.souths[bx],
            Side::E => bx < self.easts.len() && self.easts[bx],
        }
    }
}

/// No wire begins at so many boxes.
fn unmarked(alloc: Global, count: usize) -> Result<Wired, AllocError>
    ensures souths { IfOk result (λ wired. wired.souths.items ≡ replicate count false) }
    ensures easts { IfOk result (λ wired. wired.easts.items ≡ replicate count false) }
{
    Ok(Wired {
        souths: vec![in alloc; false; count]?,
        easts: vec![in alloc; false; count]?,
    })
}
