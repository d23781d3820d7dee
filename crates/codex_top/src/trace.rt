//! The command `trace`: evaluates a program and tells each event.

ghost use Rattle.std.specs.Prelude.{◌≤◌};
ghost use Rattle.two_d.specs.Steps.{start, EachReady};
ghost use Rattle.fire_core.specs.Events.{event_of, events_shown};
ghost use Rattle.fire_eval.specs.Evaluation.{choice_of, HasPicks};
ghost use Rattle.codex_top.specs.Limits.{most_made};
ghost use Rattle.codex_top.specs.Evaluating.{IsPrinted};
ghost use Rattle.codex_top.specs.Commands.{TraceEnds};
ghost use Rattle.codex_top.specs.TraceCommand.{event_lines};
ghost use Rattle.codex_top.specs.Outside.{shelved, told, IsOnlyRead, IsStreamCounted};
ghost use Rattle.codex_top.specs.Sending.{IsSent};
ghost use Rattle.codex_top.specs.inner.Instances as plain;
ghost use Rattle.codex_top.specs.inner.Instances.{IsEventOf, IsStartedIf, event_text};

use crate::end::End;
use crate::evaluating::{evaluate, tell_outcome};
use crate::line::Line;
use crate::reading::read_program;
use crate::sending::send;
use fire_core::Event;
use fire_eval::Picks;
use itoa::Buffer;
use std::alloc::Global;
use two_d::{Command, Program};
use umix_base::{Shelf, Sink};

/// Evaluates the program in a file by these picks, for so many events at most, and writes a line
/// for each event and then its outcome's text.
pub fn trace<F: Shelf, O: Sink>(
    alloc: Global,
    file: &str,
    picks: &Picks,
    events: u64,
    shelf: &mut F,
    out: &mut O,
) -> End
    requires picks { HasPicks picks.now }
    requires events { events ≤ most_made }
    ensures ends { TraceEnds file.now (choice_of picks.now) events
        (shelved F.Shelf shelf.old) (shelved F.Shelf shelf.new)
        (told O.Sink out.old) (told O.Sink out.new) result }
    ensures shelf { IsOnlyRead (shelved F.Shelf shelf.old) (shelved F.Shelf shelf.new) }
    ensures counted { IsStreamCounted (told O.Sink out.old) (told O.Sink out.new) }
{
    let program = read_program(alloc, file, shelf)?;
    let report = evaluate(alloc, &program, picks, events)?;
    put_events(alloc, &program, &report.log, out)?;
    tell_outcome(alloc, &program, &report, events, out)
}

// writes the lines of the events of a log, one after another
fn put_events<O: Sink>(
    alloc: Global,
    program: &Program,
    log: &[Event],
    out: &mut O,
) -> Result<(), Line>
    requires { EachReady program.now (start program.now) (events_shown log.now) }
    ensures printed { IsPrinted (event_lines program.now (start program.now) (events_shown log.now))
        (told O.Sink out.old) (told O.Sink out.new) result }
    ensures counted { IsStreamCounted (told O.Sink out.old) (told O.Sink out.new) }
{
    let mut kinds = Vec::new(alloc);
    kinds.push(program.main())?;
    for event in log {
        put_event(program, &kinds, *event, out)?;
        match started(program, &kinds, *event) {
            Some(kind) => kinds.push(kind)?,
            None => {}
        }
    }
    Ok(())
}

// writes the line of an event, where the instances are of these modules
fn put_event<O: Sink>(
    program: &Program,
    kinds: &[usize],
    event: Event,
    out: &mut O,
) -> Result<(), Line>
    requires { IsEventOf program.now kinds.now (event_of event) }
    ensures sent { IsSent (event_text program.now kinds.now (event_of event))
        (told O.Sink out.old) (told O.Sink out.new) result }
    ensures counted { IsStreamCounted (told O.Sink out.old) (told O.Sink out.new) }
{
    let mut first = Buffer::new();
    let mut second = Buffer::new();
    match event {
        Event::Fire(instance, bx) => {
            let module = &program.modules()[kinds[instance as usize]];
            let name = module.name.bytes();
            let instance = first.format(instance).as_bytes();
            let number = second.format(bx as u64 + 1).as_bytes();
            send(out, &[b"fire ", instance, b" ", name, b" ", number, b"\n"])
        }
        Event::End(instance) => {
            let instance = first.format(instance).as_bytes();
            send(out, &[b"end ", instance, b"\n"])
        }
    }
}

// the module of the instance that an event starts, if it starts one
fn started(program: &Program, kinds: &[usize], event: Event) -> Option<usize>
    requires { IsEventOf program.now kinds.now (event_of event) }
    ensures { IsStartedIf program.now
        (plain.started program.now kinds.now (event_of event)) result }
{
    let Event::Fire(instance, bx) = event else {
        return None;
    };
    let module = &program.modules()[kinds[instance as usize]];
    match &module.boxes[bx as usize].command {
        Command::Call(name) => program.find(name),
        _ => None,
    }
}
