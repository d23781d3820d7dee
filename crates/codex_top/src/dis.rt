//! The command `dis`: lists the words of a scroll.

ghost use Rattle.codex_top.specs.Outside.{shelved, told, IsOnlyRead, IsStreamCounted};
ghost use Rattle.codex_top.specs.Commands.{ListingEnds};

use crate::end::End;
use crate::reading::read_scroll;
use crate::sending::send_last;
use std::alloc::Global;
use um_asm::disassemble;
use umix_base::{Shelf, Sink};

/// Writes the listing of the words of the scroll in a file.
pub fn dis<F: Shelf, O: Sink>(alloc: Global, file: &str, shelf: &mut F, out: &mut O) -> End
    ensures ends { ListingEnds file.now
        (shelved F.Shelf shelf.old) (shelved F.Shelf shelf.new)
        (told O.Sink out.old) (told O.Sink out.new) result }
    ensures shelf { IsOnlyRead (shelved F.Shelf shelf.old) (shelved F.Shelf shelf.new) }
    ensures counted { IsStreamCounted (told O.Sink out.old) (told O.Sink out.new) }
{
    let words = read_scroll(alloc, file, shelf)?;
    let text = disassemble(alloc, &words)?;
    send_last(out, &[&text])
}
