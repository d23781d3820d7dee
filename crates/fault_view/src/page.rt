ghost use Rattle.std.specs.Prelude.{◌≡◌, Err};
ghost use Rattle.umix_base.specs.Causes.{HasCauseIf, KeepsTelling};
ghost use Rattle.fault_view.specs.Pages.{PageWritten};
ghost use Rattle.fault_view.specs.declared.page.PageFault.TheVariants as fault;

use crate::pages::page_of;
use std::alloc::Global;
use umix_base::{Failed, Memory, Sink};

/// What a page tells of a text.
#[derive(Clone, Copy, PartialEq, Eq, Debug)]
pub enum Answer {
    /// It is a program.
    Program,
    /// It has a fault.
    Refused,
}

/// Why no page was written whole.
#[derive(Clone, Copy, PartialEq, Eq, Debug, Drop)]
pub enum PageFault {
    /// The sink failed: a beginning of the page was written.
    Failed,
    /// There was no memory, and nothing was written.
    Memory,
}

impl From<Memory> for PageFault {
    ghost use Rattle.fault_view.specs.declared.page.PageFault.TheVariants.{Memory as NoMemory};

    ghost from_gives = { λ _ fault. fault ≡ NoMemory };

    fn from(_memory: Memory) -> PageFault {
        PageFault::Memory
    }
}

/// Writes the page of a text: the line that `check` prints of it, `ok M B` or that of its first
/// fault; of a fault with a place the rows around it, with a mark under its cell; and of each fault
/// a sentence on what usually is wrong; of a frame or box that doesn't close also where its border
/// breaks; of a module that has the name of an earlier one that one; of a box which it is, and of one
/// that waits for itself for which boxes (docs/EXPLAIN.md, "The page of a drawing"). Takes the time of
/// two checks at most.
pub fn grid_page<O: Sink>(alloc: Global, text: &[u8], out: &mut O) -> Result<Answer, PageFault>
    ensures page { PageWritten text.now (O.written out.old) (O.written out.new) result }
    ensures tells { KeepsTelling (O.written out.old) (O.written out.new) }
    ensures cause { HasCauseIf (result ≡ Err fault.Failed) (O.faults out.old) (O.faults out.new) }
{
    let page = page_of(alloc, text)?;
    match out.put(&page.bytes) {
        Ok(()) => Ok(page.answer),
        Err(Failed) => Err(PageFault::Failed),
    }
}
