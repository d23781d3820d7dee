//! One line of a session.

ghost use Rattle.std.specs.Prelude.{◌≡◌, ◌≤◌, ◌<◌, ◌+◌, ◌^◌, ◌==◌, ◌++◌, Err, IfOk, Some, codes};
ghost use Rattle.std.specs.Prelude.{decimal, nat_le};
ghost use Rattle.um_machine.specs.Outside.{IsAsked, IsFed};
ghost use Rattle.um_debug.specs.Commands.{most_cycles};
ghost use Rattle.um_debug.specs.Replies.{came_text, registers_text, words_text, finger_text};
ghost use Rattle.um_debug.specs.Replies.{unknown_text};
ghost use Rattle.um_debug.specs.Session.{toggled, is_place, most_breakpoints, most_watches, sent};
ghost use Rattle.um_debug.specs.inner.Calls.{MayAsk, ComesTo, CyclesEnd, CommandEnds, AnswerEnds};
ghost use Rattle.um_debug.specs.inner.Calls.{ObeyEnds};
ghost use Rattle.um_debug.specs.inner.Calls.{Sets};

use crate::command::{Command, MOST_CYCLES, WordPlace, command_of};
use crate::course::{Came, go};
use crate::debugger::DebugEnd;
use crate::points::Points;
use crate::replies::{
    end_line, push_breakpoint, push_came, push_finger, push_registers, push_unknown, push_watch,
    push_words,
};
use std::alloc::Global;
use um_machine::Machine;
use umix_base::{Failed, Memory, Sink, Source};

/// Does what a line asks for, and sends its reply.
pub(crate) fn obey<I: Source, O: Sink>(
    alloc: Global,
    line: &[u8],
    machine: &mut Machine,
    points: &mut Points,
    input: &mut I,
    out: &mut O,
) -> Result<(), DebugEnd>
    ensures ends { ComesTo I.Source O.Sink machine.old machine.new
        input.old input.new out.old out.new (λ input output s t. ObeyEnds line.now input output
        machine.old machine.new points.old points.new s t result) }
    ensures limits { machine.new.limits ≡ machine.old.limits }
    ensures input { IsAsked I.Source input.old input.new (result ≡ Err DebugEnd.ReadFault) }
    ensures out { IsFed O.Sink out.old out.new (result ≡ Err DebugEnd.WriteFault) }
{
    let reply = answer(alloc, line, machine, points, input, out)?;
    match out.put(&reply) {
        Ok(()) => Ok(()),
        Err(Failed) => Err(DebugEnd::WriteFault),
    }
}

// does what a line asks for: its reply, with its LF
fn answer<I: Source, O: Sink>(
    alloc: Global,
    line: &[u8],
    machine: &mut Machine,
    points: &mut Points,
    input: &mut I,
    out: &mut O,
) -> Result<Vec<u8>, DebugEnd>
    ensures ends { ComesTo I.Source O.Sink machine.old machine.new
        input.old input.new out.old out.new (λ input output s t. AnswerEnds line.now input output
        machine.old machine.new points.old points.new s t result) }
    ensures limits { machine.new.limits ≡ machine.old.limits }
    ensures input { IsAsked I.Source input.old input.new (result ≡ Err DebugEnd.ReadFault) }
    ensures out { IsFed O.Sink out.old out.new (result ≡ Err DebugEnd.WriteFault) }
{
    match command_of(line) {
        Some(command) => follow(alloc, command, machine, points, input, out),
        None => Ok(unknown_reply(alloc)?),
    }
}

// does what a command asks for: its reply, with its LF
fn follow<I: Source, O: Sink>(
    alloc: Global,
    command: Command,
    machine: &mut Machine,
    points: &mut Points,
    input: &mut I,
    out: &mut O,
) -> Result<Vec<u8>, DebugEnd>
    requires { MayAsk command }
    ensures ends { ComesTo I.Source O.Sink machine.old machine.new
        input.old input.new out.old out.new (λ input output s t. CommandEnds command input output
        machine.old machine.new points.old points.new s t result) }
    ensures limits { machine.new.limits ≡ machine.old.limits }
    ensures input { IsAsked I.Source input.old input.new (result ≡ Err DebugEnd.ReadFault) }
    ensures out { IsFed O.Sink out.old out.new (result ≡ Err DebugEnd.WriteFault) }
{
    match command {
        Command::Step(cycles) => {
            let no_points = Points::new(alloc);
            cycles_reply(alloc, machine, &no_points, cycles, input, out)
        }
        Command::Go(cycles) => cycles_reply(alloc, machine, points, cycles, input, out),
        Command::Breakpoint(offset) => Ok(breakpoint_reply(alloc, points, offset)?),
        Command::Watch(place) => Ok(watch_reply(alloc, points, place)?),
        Command::Registers => Ok(registers_reply(alloc, machine)?),
        Command::Words(place, count) => Ok(words_reply(alloc, machine, place, count)?),
        Command::Finger => Ok(finger_reply(alloc, machine)?),
        Command::Quit => Ok(Vec::new(alloc)),
    }
}

// up to so many cycles, which look at these points, where not too many would be made in all
fn cycles_reply<I: Source, O: Sink>(
    alloc: Global,
    machine: &mut Machine,
    points: &Points,
    cycles: u64,
    input: &mut I,
    out: &mut O,
) -> Result<Vec<u8>, DebugEnd>
    requires { 1 ≤ cycles }
    ensures ends { ComesTo I.Source O.Sink machine.old machine.new
        input.old input.new out.old out.new
        (λ input output s t. CyclesEnd points.now cycles input output machine.old machine.new s t result) }
    ensures limits { machine.new.limits ≡ machine.old.limits }
    ensures input { IsAsked I.Source input.old input.new (result ≡ Err DebugEnd.ReadFault) }
    ensures out { IsFed O.Sink out.old out.new (result ≡ Err DebugEnd.WriteFault) }
{
    if !may_make(machine, cycles) {
        return Ok(unknown_reply(alloc)?);
    }
    let came = go(machine, points, cycles, input, out)?;
    Ok(came_reply(alloc, &came, machine)?)
}

// not too many cycles would be made in all
fn may_make(machine: &Machine, cycles: u64) -> bool
    ensures { result ≡ nat_le (machine.now.cycles + cycles) most_cycles }
{
    let made = machine.cycles();
    made <= MOST_CYCLES && cycles <= MOST_CYCLES - made
}

fn came_reply(alloc: Global, came: &Came, machine: &Machine) -> Result<Vec<u8>, Memory>
    requires { machine.now.cycles + 1 < 2 ^ 64 }
    ensures { IfOk result (λ reply.
        reply.items ≡ sent (Some (came_text came.now machine.now.cycles machine.now.finger))) }
{
    let mut reply = Vec::new(alloc);
    push_came(&mut reply, came, machine)?;
    end_line(&mut reply)?;
    Ok(reply)
}

fn breakpoint_reply(alloc: Global, points: &mut Points, offset: u32) -> Result<Vec<u8>, Memory>
    ensures { IfOk result (λ reply. Sets (codes "b " ++ decimal offset)
        (toggled (λ other. other == offset) most_breakpoints offset points.old.breakpoints) points.old
        (λ xs. record points.old { breakpoints = xs }) points.new reply.items) }
{
    let toggle = points.toggle_breakpoint(offset)?;
    let mut reply = Vec::new(alloc);
    push_breakpoint(&mut reply, offset, toggle)?;
    end_line(&mut reply)?;
    Ok(reply)
}

fn watch_reply(alloc: Global, points: &mut Points, place: WordPlace) -> Result<Vec<u8>, Memory>
    ensures { IfOk result (λ reply.
        Sets (codes "w " ++ decimal place.id ++ codes " " ++ decimal place.offset)
        (toggled (is_place place) most_watches place points.old.watches) points.old
        (λ xs. record points.old { watches = xs }) points.new reply.items) }
{
    let toggle = points.toggle_watch(place)?;
    let mut reply = Vec::new(alloc);
    push_watch(&mut reply, place, toggle)?;
    end_line(&mut reply)?;
    Ok(reply)
}

fn registers_reply(alloc: Global, machine: &Machine) -> Result<Vec<u8>, Memory>
    ensures { IfOk result (λ reply. reply.items ≡ sent (Some (registers_text machine.now.registers))) }
{
    // a machine has eight registers
    let _ = machine.live();
    let mut reply = Vec::new(alloc);
    push_registers(&mut reply, machine)?;
    end_line(&mut reply)?;
    Ok(reply)
}

fn words_reply(
    alloc: Global,
    machine: &Machine,
    place: WordPlace,
    count: u32,
) -> Result<Vec<u8>, Memory>
    requires { (1 ≤ count) × (place.offset + count ≤ 2 ^ 32) }
    ensures { IfOk result (λ reply.
        reply.items ≡ sent (Some (words_text machine.now.arrays place count))) }
{
    let mut reply = Vec::new(alloc);
    push_words(&mut reply, machine, place, count)?;
    end_line(&mut reply)?;
    Ok(reply)
}

fn finger_reply(alloc: Global, machine: &Machine) -> Result<Vec<u8>, Memory>
    ensures { IfOk result (λ reply. reply.items ≡
        sent (Some (finger_text machine.now.arrays machine.now.cycles machine.now.finger))) }
{
    let mut reply = Vec::new(alloc);
    push_finger(&mut reply, machine)?;
    end_line(&mut reply)?;
    Ok(reply)
}

fn unknown_reply(alloc: Global) -> Result<Vec<u8>, Memory>
    ensures { IfOk result (λ reply. reply.items ≡ sent (Some unknown_text)) }
{
    let mut reply = Vec::new(alloc);
    push_unknown(&mut reply)?;
    end_line(&mut reply)?;
    Ok(reply)
}
