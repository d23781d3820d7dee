//! The command `resume`: goes on with the machine of an image.

ghost use Rattle.std.specs.Prelude.{◌≤◌};
ghost use Rattle.codex_top.specs.Limits.{most_made};
ghost use Rattle.codex_top.specs.Outside.{outside, shelved, streams, AreCounted, IsOnlyRead};
ghost use Rattle.codex_top.specs.Commands.{ResumeEnds};

use crate::end::End;
use crate::reading::read_saved;
use crate::run::end_of;
use crate::skipping::skip;
use std::alloc::Global;
use umix_base::{Shelf, Sink, Source};

/// Takes again what the machine of the image in a file had taken of its input, and runs it on, for so
/// many cycles at most.
pub fn resume<F: Shelf, I: Source, O: Sink>(
    alloc: Global,
    file: &str,
    cycles: u64,
    shelf: &mut F,
    input: &mut I,
    out: &mut O,
) -> End
    requires { cycles ≤ most_made }
    ensures ends { ResumeEnds file.now cycles
        (outside F.Shelf I.Source O.Sink shelf.old input.old out.old)
        (outside F.Shelf I.Source O.Sink shelf.new input.new out.new) result }
    ensures shelf { IsOnlyRead (shelved F.Shelf shelf.old) (shelved F.Shelf shelf.new) }
    ensures counted { AreCounted
        (streams I.Source O.Sink input.old out.old)
        (streams I.Source O.Sink input.new out.new) }
{
    let (mut machine, taken) = read_saved(alloc, file, shelf)?;
    skip(input, taken)?;
    let stop = machine.run(input, out, cycles);
    end_of(cycles, machine.cycles(), stop)
}
