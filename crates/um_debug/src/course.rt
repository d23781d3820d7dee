//! Cycles, with breakpoints and watches.

ghost use Rattle.std.specs.Prelude.{◌≡◌, ◌≤◌, ◌<◌, ◌^◌, ◌+◌, Ok, Err};
ghost use Rattle.um_machine.specs.Outside.{IsAsked, IsFed};
ghost use Rattle.um_machine.specs.MachineView.{IsWhole};
ghost use Rattle.um_debug.specs.Course.{no_points};
ghost use Rattle.um_debug.specs.inner.Calls.{ComesTo, Course, came_by};

use crate::command::WordPlace;
use crate::debugger::DebugEnd;
use crate::points::Points;
use um_machine::{Machine, Stop, Turn};
use umix_base::{Sink, Source};

/// What cycles came to.
#[derive(Clone, Copy, PartialEq, Eq, Debug)]
pub(crate) enum Came {
    /// All of them were made.
    Stopped,
    /// The machine has halted.
    Halted,
    /// The machine failed.
    Failed(Stop),
    /// A watched word, with what it was before the last cycle, and what it is now.
    Watched(WordPlace, Option<u32>, Option<u32>),
    /// The breakpoint at an offset.
    Broke(u32),
}

/// Up to so many cycles, whatever they come by.
pub(crate) fn step<I: Source, O: Sink>(
    machine: &mut Machine,
    cycles: u64,
    input: &mut I,
    out: &mut O,
) -> Result<Came, DebugEnd>
    requires some { 1 ≤ cycles }
    requires fit { machine.old.cycles + cycles < 2 ^ 64 }
    ensures course { ComesTo I.Source O.Sink machine.old machine.new
        input.old input.new out.old out.new
        (λ input output s t. Course no_points cycles input output machine.old machine.new s t result) }
    ensures counted { machine.new.cycles ≤ machine.old.cycles + cycles }
    ensures limits { machine.new.limits ≡ machine.old.limits }
    ensures whole { IsWhole machine.new }
    ensures input { IsAsked I.Source input.old input.new (result ≡ Err DebugEnd.ReadFault) }
    ensures out { IsFed O.Sink out.old out.new (result ≡ Err DebugEnd.WriteFault) }
{
    match machine.run(input, out, cycles) {
        Stop::Budget => Ok(Came::Stopped),
        Stop::Halted => Ok(Came::Halted),
        stop => came_of(stop),
    }
}

/// Up to so many cycles, to the first breakpoint or change. Where nothing is set, at the speed of a run.
pub(crate) fn go<I: Source, O: Sink>(
    machine: &mut Machine,
    points: &Points,
    cycles: u64,
    input: &mut I,
    out: &mut O,
) -> Result<Came, DebugEnd>
    requires some { 1 ≤ cycles }
    requires fit { machine.old.cycles + cycles < 2 ^ 64 }
    ensures course { ComesTo I.Source O.Sink machine.old machine.new
        input.old input.new out.old out.new
        (λ input output s t. Course points.now cycles input output machine.old machine.new s t result) }
    ensures counted { machine.new.cycles ≤ machine.old.cycles + cycles }
    ensures limits { machine.new.limits ≡ machine.old.limits }
    ensures whole { IsWhole machine.new }
    ensures input { IsAsked I.Source input.old input.new (result ≡ Err DebugEnd.ReadFault) }
    ensures out { IsFed O.Sink out.old out.new (result ≡ Err DebugEnd.WriteFault) }
{
    if points.is_empty() {
        return step(machine, cycles, input, out);
    }
    let words = points.words(machine);
    for _ in 0..cycles {
        match machine.cycle(input, out) {
            Ok(Turn::Running) => {}
            Ok(Turn::Halted) => return Ok(Came::Halted),
            Err(stop) => return came_of(stop),
        }
        if let Some(came) = points.look(machine, &words) {
            return Ok(came);
        }
    }
    Ok(Came::Stopped)
}

// what a stop comes to that is neither of a budget nor of a halt
fn came_of(stop: Stop) -> Result<Came, DebugEnd>
    ensures { result ≡ came_by stop }
{
    match stop {
        Stop::ReadFault => Err(DebugEnd::ReadFault),
        Stop::WriteFault => Err(DebugEnd::WriteFault),
        Stop::Memory => Err(DebugEnd::Memory),
        fault => Ok(Came::Failed(fault)),
    }
}
