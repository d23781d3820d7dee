//! A session, from its first line to its end.

ghost use Rattle.std.specs.Prelude.{◌≡◌, ◌⊎◌};
ghost use Rattle.umix_base.specs.Causes.{Rose};
ghost use Rattle.um_machine.specs.Outside.{IsAsked, IsFed};
ghost use Rattle.um_machine.specs.Runs.{seen_by};
ghost use Rattle.um_debug.specs.Debugging.{Debugged};

use crate::line::next_line;
use crate::points::Points;
use crate::session::obey;
use std::alloc::Global;
use um_machine::Machine;
use umix_base::{Failed, Memory, Sink, Source};

/// How a session ends. See "Ends" in docs/DEBUGGER.md.
#[derive(Clone, Copy, PartialEq, Eq, Debug, Drop)]
pub enum DebugEnd {
    /// At a line `q`.
    Quit,
    /// No byte of a line was left.
    EndOfCommands,
    /// As many lines were taken as there were turns, none of them `q`.
    Turns,
    /// The commands or the scroll's input failed.
    ReadFault,
    /// The output failed.
    WriteFault,
    /// There was no memory.
    Memory,
}

impl From<Memory> for DebugEnd {
    ghost use Rattle.std.specs.Prelude.{◌≡◌};
    ghost use Rattle.um_debug.specs.declared.debugger.DebugEnd.TheVariants as ends;

    ghost from_gives = { λ memory end. end ≡ ends.Memory };

    fn from(_: Memory) -> DebugEnd {
        DebugEnd::Memory
    }
}

/// A session of at most so many lines: takes lines from the commands, does on the machine what they ask for, and
/// writes their replies behind what the scroll writes. The scroll reads the input.
/// See docs/DEBUGGER.md.
pub fn debug<I: Source, J: Source, O: Sink>(
    alloc: Global,
    machine: &mut Machine,
    commands: &mut I,
    input: &mut J,
    out: &mut O,
    turns: u64,
) -> DebugEnd
    ensures session { let seen = seen_by J.Source O.Sink in
        Debugged I.Source J.Source O.Sink turns (seen machine.old input.old out.old)
        (seen machine.new input.new out.new) commands.old commands.new input.old input.new out.old out.new result }
    ensures read { result ≡ DebugEnd.ReadFault → Rose (I.faults commands.old) (I.faults commands.new)
        ⊎ Rose (J.faults input.old) (J.faults input.new) }
    ensures limits { machine.new.limits ≡ machine.old.limits }
    ensures commands { IsAsked I.Source commands.old commands.new (⊥) }
    ensures input { IsAsked J.Source input.old input.new (⊥) }
    ensures out { IsFed O.Sink out.old out.new (result ≡ DebugEnd.WriteFault) }
{
    let mut points = Points::new(alloc);
    for _ in 0..turns {
        let line = match next_line(commands) {
            Ok(Some(line)) => line,
            Ok(None) => return DebugEnd::EndOfCommands,
            Err(Failed) => return DebugEnd::ReadFault,
        };
        if line.bytes() == b"q".as_slice() {
            return DebugEnd::Quit;
        }
        if let Err(end) = obey(alloc, line.bytes(), machine, &mut points, input, out) {
            return end;
        }
    }
    DebugEnd::Turns
}
