ghost use Rattle.std.specs.Prelude.{◌≤◌, IfOk};
ghost use Rattle.lower_emit.specs.Tables.{IsLight};
ghost use Rattle.lower_link.specs.Follows.{Follows};
ghost use Rattle.lower_link.specs.Realises.{Realises};

use crate::linking::Linked;
use crate::scroll::scroll_of;
use crate::table::first_texts;
use lower_emit::{Table, emit_with, frame_sizes};
use lower_plan::plans;
use std::alloc::Global;
use two_d::Program;
use umix_base::Memory;

/// The scroll of a program whose weight is at most 262,144: the boot, a block for each module, and
/// the printer. Its runs write the program's text and halt, and follow its calls within bounds, or
/// stand at a limit. Its only error is want of memory. Linear in the weight and the words, but for
/// the making of plans. See "What is promised" in docs/COMPILED.md.
pub fn compile(alloc: Global, program: &Program) -> Result<Linked, Memory>
    requires light { IsLight program.now }
    ensures realises { IfOk result (λ linked. Realises program.now linked.words.items) }
    ensures follows { IfOk result (λ linked. Follows program.now linked.words.items
        linked.blocks.items) }
{
    let table = Table {
        printer: program.modules().len() as u32,
        sites: first_texts(alloc, program)?,
    };
    let frames = frame_sizes(alloc, program)?;
    let plans = plans(alloc, program)?;
    let mut blocks = Vec::new(alloc);
    for plan in &plans {
        blocks.push(emit_with(alloc, plan, program, &table, &frames)?)?;
    }
    scroll_of(alloc, program, blocks)
}
