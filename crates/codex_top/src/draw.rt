//! The command `draw`: draws a program in its one layout.

ghost use Rattle.codex_top.specs.Commands.{DrawEnds};
ghost use Rattle.codex_top.specs.Outside.{shelved, told, IsOnlyRead, IsStreamCounted};

use crate::end::End;
use crate::reading::read_program;
use crate::sending::send_last;
use std::alloc::Global;
use umix_base::{Shelf, Sink};

/// Writes the drawing of the program in a file.
pub fn draw<F: Shelf, O: Sink>(alloc: Global, file: &str, shelf: &mut F, out: &mut O) -> End
    ensures ends { DrawEnds file.now
        (shelved F.Shelf shelf.old) (shelved F.Shelf shelf.new)
        (told O.Sink out.old) (told O.Sink out.new) result }
    ensures shelf { IsOnlyRead (shelved F.Shelf shelf.old) (shelved F.Shelf shelf.new) }
    ensures counted { IsStreamCounted (told O.Sink out.old) (told O.Sink out.new) }
{
    let program = read_program(alloc, file, shelf)?;
    let text = grid_draw::draw(alloc, &program)?;
    send_last(out, &[&text])
}
