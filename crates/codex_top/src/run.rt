//! The command `run`: runs a scroll.

ghost use Rattle.std.specs.Prelude.{◌≡◌, ◌≤◌, ◌+◌, ◌<◌, ◌^◌};
ghost use Rattle.codex_top.specs.Limits.{most_made};
ghost use Rattle.codex_top.specs.Outside.{outside, shelved, streams, AreCounted, IsOnlyRead};
ghost use Rattle.codex_top.specs.Commands.{RunCommandEnds};
ghost use Rattle.codex_top.specs.RunCommand.{end_of_run};

use crate::end::{End, Finish};
use crate::line::{Counted, Limit, Line};
use crate::reading::read_scroll;
use crate::starting::start;
use std::alloc::Global;
use um_machine::Stop;
use umix_base::{Shelf, Sink, Source};

/// Runs the scroll in a file, for so many cycles at most.
pub fn run<F: Shelf, I: Source, O: Sink>(
    alloc: Global,
    file: &str,
    cycles: u64,
    shelf: &mut F,
    input: &mut I,
    out: &mut O,
) -> End
    requires { cycles ≤ most_made }
    ensures ends { RunCommandEnds file.now cycles
        (outside F.Shelf I.Source O.Sink shelf.old input.old out.old)
        (outside F.Shelf I.Source O.Sink shelf.new input.new out.new) result }
    ensures shelf { IsOnlyRead (shelved F.Shelf shelf.old) (shelved F.Shelf shelf.new) }
    ensures counted { AreCounted
        (streams I.Source O.Sink input.old out.old)
        (streams I.Source O.Sink input.new out.new) }
{
    let words = read_scroll(alloc, file, shelf)?;
    let mut machine = start(alloc, words)?;
    let stop = machine.run(input, out, cycles);
    end_of(cycles, machine.cycles(), stop)
}

/// The end of a run that had so many cycles to make and stopped after so many were made, counted from
/// the scroll's start.
pub fn end_of(cycles: u64, made: u64, stop: Stop) -> End
    requires { made + 1 < 2 ^ 64 }
    ensures { result ≡ end_of_run cycles made stop }
{
    match stop {
        Stop::Halted => Ok(Finish::Done),
        Stop::Budget => Err(Line::Budget(cycles, Counted::Cycles)),
        Stop::ReadFault => Err(Line::ReadFault),
        Stop::WriteFault => Err(Line::WriteFault),
        Stop::Memory => Err(Line::NoMemory),
        Stop::ArraysFull(count) => Err(Line::Limited(Limit::ArraysFull(count), made + 1)),
        Stop::WordsFull(count) => Err(Line::Limited(Limit::WordsFull(count), made + 1)),
        fault => Err(Line::Fault(fault, made + 1)),
    }
}
