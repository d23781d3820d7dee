ghost use Rattle.std.specs.Prelude.{◌+◌, ◌≤◌, IfOk};
ghost use Rattle.lower_emit.specs.Tables.{IsLight};
ghost use Rattle.lower_link.specs.inner.Tables.{AreFirstTexts};

use std::alloc::Global;
use two_d::Program;
use umix_base::Memory;

/// For each module the number of its first text. A module has a text for each box, and two more.
pub(crate) fn first_texts(alloc: Global, program: &Program) -> Result<Vec<u32>, Memory>
    requires light { IsLight program.now }
    ensures { IfOk result (λ numbers. AreFirstTexts program.now numbers.items) }
{
    let mut numbers = Vec::new(alloc);
    let mut next = 0;
    for owner in program.modules() {
        numbers.push(next)?;
        next += owner.boxes.len() as u32 + 2;
    }
    Ok(numbers)
}
