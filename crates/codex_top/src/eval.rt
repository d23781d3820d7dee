//! The command `eval`: evaluates a program.

ghost use Rattle.std.specs.Prelude.{◌≤◌};
ghost use Rattle.fire_eval.specs.Evaluation.{HasPicks};
ghost use Rattle.codex_top.specs.Commands.{EvalEnds};
ghost use Rattle.codex_top.specs.Limits.{most_made};
ghost use Rattle.codex_top.specs.Outside.{shelved, told, IsOnlyRead, IsStreamCounted};

use crate::end::End;
use crate::evaluating::{evaluate, tell_outcome};
use crate::reading::read_program;
use fire_eval::Picks;
use std::alloc::Global;
use umix_base::{Shelf, Sink};

/// Evaluates the program in a file by these picks, for so many events at most, and writes its
/// outcome's text.
pub fn eval<F: Shelf, O: Sink>(
    alloc: Global,
    file: &str,
    picks: &Picks,
    events: u64,
    shelf: &mut F,
    out: &mut O,
) -> End
    requires picks { HasPicks picks.now }
    requires events { events ≤ most_made }
    ensures ends { EvalEnds file.now events
        (shelved F.Shelf shelf.old) (shelved F.Shelf shelf.new)
        (told O.Sink out.old) (told O.Sink out.new) result }
    ensures shelf { IsOnlyRead (shelved F.Shelf shelf.old) (shelved F.Shelf shelf.new) }
    ensures counted { IsStreamCounted (told O.Sink out.old) (told O.Sink out.new) }
{
    let program = read_program(alloc, file, shelf)?;
    let report = evaluate(alloc, &program, picks, events)?;
    tell_outcome(alloc, &program, &report, events, out)
}
