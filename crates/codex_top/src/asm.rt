//! The command `asm`: assembles a text.

ghost use Rattle.codex_top.specs.Outside.{shelved, IsShelfCounted};
ghost use Rattle.codex_top.specs.Commands.{AssemblyEnds};

use crate::end::End;
use crate::reading::read_text;
use crate::sending::write_scroll;
use std::alloc::Global;
use umix_base::Shelf;

/// Assembles the text in a file, and writes the scroll of its words into another.
pub fn asm<F: Shelf>(alloc: Global, file: &str, out: &str, shelf: &mut F) -> End
    ensures ends { AssemblyEnds file.now out.now
        (shelved F.Shelf shelf.old) (shelved F.Shelf shelf.new) result }
    ensures counted { IsShelfCounted (shelved F.Shelf shelf.old) (shelved F.Shelf shelf.new) }
{
    let words = read_text(alloc, file, shelf)?;
    write_scroll(alloc, out, &words, shelf)
}
