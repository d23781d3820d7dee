//! The command `check`: checks a grid.

ghost use Rattle.std.specs.Prelude.{◌≡◌, ◌≤◌};
ghost use Rattle.two_d.specs.Weights.{weight};
ghost use Rattle.codex_top.specs.Boxes.{boxes_in};
ghost use Rattle.codex_top.specs.Commands.{CheckEnds};
ghost use Rattle.codex_top.specs.Limits.{most_grid_bytes};
ghost use Rattle.codex_top.specs.Outside.{shelved, told, IsOnlyRead, IsStreamCounted};

use crate::end::End;
use crate::reading::read_program;
use crate::sending::send_last;
use itoa::Buffer;
use std::alloc::Global;
use two_d::Program;
use umix_base::{Shelf, Sink};

/// Checks the grid in a file, and writes the numbers of its modules and boxes.
pub fn check<F: Shelf, O: Sink>(alloc: Global, file: &str, shelf: &mut F, out: &mut O) -> End
    ensures ends { CheckEnds file.now
        (shelved F.Shelf shelf.old) (shelved F.Shelf shelf.new)
        (told O.Sink out.old) (told O.Sink out.new) result }
    ensures shelf { IsOnlyRead (shelved F.Shelf shelf.old) (shelved F.Shelf shelf.new) }
    ensures counted { IsStreamCounted (told O.Sink out.old) (told O.Sink out.new) }
{
    let program = read_program(alloc, file, shelf)?;
    let mut first = Buffer::new();
    let mut second = Buffer::new();
    let modules = first.format(program.modules().len()).as_bytes();
    let boxes = second.format(count_boxes(&program)).as_bytes();
    send_last(out, &[b"ok ", modules, b" ", boxes, b"\n"])
}

/// The number of boxes of all modules.
pub fn count_boxes(program: &Program) -> usize
    requires { weight program.now ≤ most_grid_bytes }
    ensures { result ≡ boxes_in program.now }
{
    let mut boxes = 0;
    for module in program.modules() {
        boxes += module.boxes.len();
    }
    boxes
}
