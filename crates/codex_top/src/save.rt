//! The command `save`: runs a scroll, and keeps its machine in a file.

ghost use Rattle.std.specs.Prelude.{◌≤◌};
ghost use Rattle.codex_top.specs.Limits.{most_made};
ghost use Rattle.codex_top.specs.Outside.{outside, IsCounted};
ghost use Rattle.codex_top.specs.Commands.{SaveEnds};

use crate::end::End;
use crate::reading::read_scroll;
use crate::run::end_of;
use crate::sending::write_file;
use crate::starting::start;
use std::alloc::Global;
use um_image::{image, run_counted};
use um_machine::Stop;
use umix_base::{Shelf, Sink, Source};

/// Runs the scroll in a file, for so many cycles at most, and writes the image of its machine into
/// another.
pub fn save<F: Shelf, I: Source, O: Sink>(
    alloc: Global,
    file: &str,
    cycles: u64,
    out: &str,
    shelf: &mut F,
    input: &mut I,
    output: &mut O,
) -> End
    requires { cycles ≤ most_made }
    ensures ends { SaveEnds file.now cycles out.now
        (outside F.Shelf I.Source O.Sink shelf.old input.old output.old)
        (outside F.Shelf I.Source O.Sink shelf.new input.new output.new) result }
    ensures counted { IsCounted
        (outside F.Shelf I.Source O.Sink shelf.old input.old output.old)
        (outside F.Shelf I.Source O.Sink shelf.new input.new output.new) }
{
    let words = read_scroll(alloc, file, shelf)?;
    let mut machine = start(alloc, words)?;
    let (stop, taken) = run_counted(&mut machine, input, output, cycles);
    match stop {
        Stop::Halted | Stop::Budget => {
            let bytes = image(alloc, &machine, taken)?;
            write_file(alloc, out, &bytes, shelf)
        }
        _ => end_of(cycles, machine.cycles(), stop),
    }
}
