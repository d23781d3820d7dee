//! What the commands tell of an evaluation.

ghost use Rattle.std.specs.Prelude.{◌≡◌, ◌≤◌, List, IfOk};
ghost use Rattle.codex_values.specs.Value.{Value};
ghost use Rattle.two_d.specs.Steps.{events_of};
ghost use Rattle.two_d.specs.Texts.{outcome_in};
ghost use Rattle.two_d.specs.Trails.{Trail};
ghost use Rattle.fire_core.specs.Events.{events_shown};
ghost use Rattle.fire_eval.specs.Evaluation.{choice_of, HasPicks};
ghost use Rattle.codex_top.specs.Limits.{most_made};
ghost use Rattle.codex_top.specs.Outside.{told, IsStreamCounted};
ghost use Rattle.codex_top.specs.Evaluating.{OutcomeEnds, finish_of};
ghost use Rattle.codex_top.specs.inner.Reports.{IsReport};

use crate::end::{End, Finish};
use crate::line::{Counted, Line};
use codex_values::PrintFault;
use fire_eval::{EvalFault, Picks, Report, eval};
use std::alloc::Global;
use two_d::{Outcome, Program, text};
use umix_base::{Memory, Sink};

/// The report of an evaluation of so many events at most.
pub fn evaluate(
    alloc: Global,
    program: &Program,
    picks: &Picks,
    events: u64,
) -> Result<Report, Memory>
    requires picks { HasPicks picks.now }
    requires events { events ≤ most_made }
    ensures log { IfOk result (λ report. events_shown report.log.items
        ≡ events_of program.now (choice_of picks.now) events) }
    ensures report { IfOk result (λ report. IsReport events program.now report) }
{
    match eval(alloc, program, picks, events) {
        Ok(report) => Ok(report),
        Err(EvalFault::EmptyPicks) => unreachable!(),
        Err(EvalFault::Memory) => Err(Memory),
    }
}

/// Writes the text of the outcome to which the events of a report came.
pub fn tell_outcome<O: Sink>(
    alloc: Global,
    program: &Program,
    report: &Report,
    events: u64,
    out: &mut O,
) -> End
    requires { IsReport events program.now report.now }
    ensures ends { OutcomeEnds events program.now
        (told O.Sink out.old) (told O.Sink out.new) result }
    ensures counted { IsStreamCounted (told O.Sink out.old) (told O.Sink out.new) }
{
    let outcome = match report.outcome {
        Some(outcome) => outcome,
        None => return Err(Line::Budget(events, Counted::Events)),
    };
    match text(
        alloc,
        program,
        &report.values,
        &report.trails,
        &outcome,
        out,
    ) {
        Ok(()) => Ok(finish(outcome)),
        Err(PrintFault::Write) => Err(Line::WriteFault),
        Err(PrintFault::Memory) => Err(Line::NoMemory),
    }
}

// how a command ends that has told an outcome
fn finish(outcome: Outcome) -> Finish
    ensures { (values : List Value) (trails : List Trail) →
        result ≡ finish_of (outcome_in values trails outcome) }
{
    match outcome {
        Outcome::Value(_) => Finish::Done,
        Outcome::Stuck(_) => Finish::Stuck,
    }
}
