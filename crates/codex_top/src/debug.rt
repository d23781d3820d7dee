//! The command `debug`: a session of the debugger on a scroll.

ghost use Rattle.std.specs.Prelude.{◌≡◌};
ghost use Rattle.codex_top.specs.Outside.{outside, shelved, streams, AreCounted, IsOnlyRead};
ghost use Rattle.codex_top.specs.Commands.{DebugCommandEnds};
ghost use Rattle.codex_top.specs.DebugCommand.{end_of_session};

use crate::end::{End, Finish};
use crate::line::{Counted, Line};
use crate::reading::{read_input, read_scroll};
use crate::starting::start;
use std::alloc::Global;
use um_debug::DebugEnd;
use umix_base::{Shelf, Sink, Source, SureSource};

/// The most command lines of one session.
pub const MOST_LINES: u64 = 1_000_000;

/// Debugs the scroll in a file, whose input is another file: takes command lines, and writes
/// replies and what the scroll writes.
pub fn debug<F: Shelf, I: Source, O: Sink>(
    alloc: Global,
    file: &str,
    input: &str,
    shelf: &mut F,
    commands: &mut I,
    out: &mut O,
) -> End
    ensures ends { DebugCommandEnds file.now input.now
        (outside F.Shelf I.Source O.Sink shelf.old commands.old out.old)
        (outside F.Shelf I.Source O.Sink shelf.new commands.new out.new) result }
    ensures shelf { IsOnlyRead (shelved F.Shelf shelf.old) (shelved F.Shelf shelf.new) }
    ensures counted { AreCounted
        (streams I.Source O.Sink commands.old out.old)
        (streams I.Source O.Sink commands.new out.new) }
{
    let words = read_scroll(alloc, file, shelf)?;
    let bytes = read_input(alloc, input, shelf)?;
    let mut machine = start(alloc, words)?;
    let mut input = SureSource::new(bytes);
    let end = um_debug::debug(alloc, &mut machine, commands, &mut input, out, MOST_LINES);
    end_of(end)
}

// the end of the command whose session ended so
fn end_of(end: DebugEnd) -> End
    ensures { result ≡ end_of_session end }
{
    match end {
        DebugEnd::Quit | DebugEnd::EndOfCommands => Ok(Finish::Done),
        DebugEnd::Turns => Err(Line::Budget(MOST_LINES, Counted::Lines)),
        DebugEnd::ReadFault => Err(Line::ReadFault),
        DebugEnd::WriteFault => Err(Line::WriteFault),
        DebugEnd::Memory => Err(Line::NoMemory),
    }
}
