ghost use Rattle.std.specs.Prelude.{◌≡◌, ◌<◌, ◌≤◌, ◌^◌, List, [], All, OnOk};
ghost use Rattle.um_word.specs.declared.op.Op.{Op};
ghost use Rattle.code_templates.specs.Rows.{HoleFits, Say};
ghost use Rattle.code_templates.specs.Templates as code;
ghost use Rattle.lower_link.specs.inner.Drafts.{DraftAdds};
ghost use Rattle.lower_link.specs.inner.Printer.{writes};

use code_templates::{
    Holes, Template, branch_on_slot, go_to_part, pop_work, push_work, write_byte,
};
use std::alloc::Global;
use umix_base::Memory;

/// Words that are being made.
#[derive(Drop)]
pub(crate) struct Draft {
    pub(crate) words: Vec<u32>,
}

impl Draft {
    /// No words yet.
    pub(crate) fn new(alloc: Global) -> Draft
        ensures { result.words.items ≡ [] }
    {
        Draft {
            words: Vec::new(alloc),
        }
    }

    /// Adds a template with these values in its holes.
    pub(crate) fn put<const N: usize>(
        &mut self,
        template: &Template<N>,
        values: [u32; 8],
    ) -> Result<(), Memory>
        requires size { N ≤ 1024 }
        requires holes { All (HoleFits values) template.now.rows }
        ensures { OnOk result ((ops : List Op) → Say template.now.rows values ops →
            DraftAdds self.old self.new ops) }
    {
        let words = template.fill(&Holes { values });
        self.words.extend_from_slice(words.as_slice())?;
        Ok(())
    }

    /// Goes to `none` where the slot is 0, and else to `some`.
    pub(crate) fn branch_on_slot(&mut self, slot: u32, none: u32, some: u32) -> Result<(), Memory>
        requires slot { slot < 2 ^ 25 }
        requires none { none < 2 ^ 25 }
        requires some { some < 2 ^ 25 }
        ensures { OnOk result (DraftAdds self.old self.new (code.branch_on_slot slot none some)) }
    {
        self.put(&branch_on_slot(), [slot, none, some, 0, 0, 0, 0, 0])
    }

    /// Puts a place and the record on the stack.
    pub(crate) fn push_work(&mut self, place: u32) -> Result<(), Memory>
        requires place { place < 2 ^ 25 }
        ensures { OnOk result (DraftAdds self.old self.new (code.push_work place)) }
    {
        self.put(&push_work(), [place, 0, 0, 0, 0, 0, 0, 0])
    }

    /// Takes a place and a record from the stack, and goes there.
    pub(crate) fn pop_work(&mut self) -> Result<(), Memory>
        ensures { OnOk result (DraftAdds self.old self.new (code.pop_work)) }
    {
        self.put(&pop_work(), [0, 0, 0, 0, 0, 0, 0, 0])
    }

    /// The record becomes one of its own words: goes to a place.
    pub(crate) fn go_to_part(&mut self, part: u32, place: u32) -> Result<(), Memory>
        requires part { part < 2 ^ 25 }
        requires place { place < 2 ^ 25 }
        ensures { OnOk result (DraftAdds self.old self.new (code.go_to_part part place)) }
    {
        self.put(&go_to_part(), [part, place, 0, 0, 0, 0, 0, 0])
    }

    /// Writes a byte.
    fn write_byte(&mut self, byte: u8) -> Result<(), Memory>
        ensures { OnOk result (DraftAdds self.old self.new (code.write_byte byte)) }
    {
        self.put(&write_byte(), [byte as u32, 0, 0, 0, 0, 0, 0, 0])
    }

    /// Writes bytes, one after the other.
    pub(crate) fn write(&mut self, bytes: &[u8]) -> Result<(), Memory>
        ensures { OnOk result (DraftAdds self.old self.new (writes bytes.now)) }
    {
        for byte in bytes {
            self.write_byte(*byte)?;
        }
        Ok(())
    }
}
