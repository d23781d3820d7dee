//! The page of a text.

ghost use Rattle.std.specs.Prelude.{◌≡◌, List, [], IfOk};
ghost use Rattle.two_d.specs.Program.{Drawn};
ghost use Rattle.module_table.specs.Drawn.{AreCorners};
ghost use Rattle.stuck_view.specs.Pages.{IsPage, IsPageOf, most_events};
ghost use Rattle.stuck_view.specs.inner.Reports.{IsReport};

use crate::trail::trail_page;
use fire_eval::{EvalFault, Picks, Report, eval};
use module_table::{CheckFault, Corners, Modules, drawn};
use std::alloc::Global;
use two_d::{Outcome, Program, TableFault, good_program};
use umix_base::Memory;

/// The most events that are made.
const MOST_EVENTS: u64 = 4_611_686_018_427_387_904;

/// What a page tells of a text.
#[derive(Clone, Copy, PartialEq, Eq, Debug)]
pub enum Answer {
    /// Its program comes to a value.
    Value,
    /// Its program is stuck.
    Stuck,
    /// Its program has come to nothing within 2^62 events.
    Unended,
    /// It has no program.
    Refused,
}

/// A page, and what it tells.
#[derive(Debug, Drop)]
pub struct Page {
    /// What it tells.
    pub answer: Answer,
    /// Its bytes: lines that end with LF. There are none for a text that has no program.
    pub bytes: Vec<u8>,
}

/// The page of a text: where its program is stuck, with the lines that `eval` prints of that and a
/// picture of each box or module that they name, of nine callers at most; or that it isn't stuck
/// (docs/EXPLAIN.md, "The page of a program that is stuck"). Evaluates the program, and so goes on for
/// as long as that does; beside that takes time linear in the text.
pub fn stuck_page(alloc: Global, text: &[u8]) -> Result<Page, Memory>
    ensures { IfOk result (λ page. IsPage text.now page.answer page.bytes.items) }
{
    let drawn = match drawn(alloc, text) {
        Ok(drawn) => drawn,
        Err(CheckFault::Memory) => return Err(Memory),
        Err(CheckFault::Bad { .. }) => return Ok(no_page(alloc)),
    };
    let Modules { modules, corners } = drawn;
    match good_program(alloc, modules) {
        Ok(program) => program_page(alloc, text, &program, &corners),
        Err(fault) => {
            let TableFault::Memory = fault else {
                return Ok(no_page(alloc));
            };
            Err(Memory)
        }
    }
}

/// What there is of a text that has no program.
fn no_page(alloc: Global) -> Page
    ensures answer { result.answer ≡ Answer.Refused }
    ensures bytes { result.bytes.items ≡ [] }
{
    Page {
        answer: Answer::Refused,
        bytes: Vec::new(alloc),
    }
}

/// The page of a program whose modules are drawn in the text, with these corners.
fn program_page(
    alloc: Global,
    text: &[u8],
    program: &Program,
    corners: &[Corners],
) -> Result<Page, Memory>
    ensures { (ds : List Drawn) → AreCorners corners.now ds →
        IfOk result (λ page. IsPageOf text.now ds program.now page.answer page.bytes.items) }
{
    let report = evaluate(alloc, program)?;
    let Some(outcome) = report.outcome else {
        return line_page(
            alloc,
            Answer::Unended,
            "not stuck within 4611686018427387904 events\n",
        );
    };
    match outcome {
        Outcome::Value(_) => line_page(alloc, Answer::Value, "not stuck\n"),
        Outcome::Stuck(at) => {
            let bytes = trail_page(alloc, text, program, corners, &report.trails, at)?;
            Ok(Page {
                answer: Answer::Stuck,
                bytes,
            })
        }
    }
}

/// What the events of a program come to.
fn evaluate(alloc: Global, program: &Program) -> Result<Report, Memory>
    ensures { IfOk result (IsReport most_events program.now) }
{
    match eval(alloc, program, &Picks::First, MOST_EVENTS) {
        Ok(report) => Ok(report),
        Err(EvalFault::EmptyPicks) => unreachable!(),
        Err(EvalFault::Memory) => Err(Memory),
    }
}

/// A page of one line.
fn line_page(alloc: Global, answer: Answer, line: &str) -> Result<Page, Memory>
    ensures answer { IfOk result (λ page. page.answer ≡ answer) }
    ensures bytes { IfOk result (λ page. page.bytes.items ≡ line.now) }
{
    let bytes = Vec::from_slice(alloc, line.as_bytes())?;
    Ok(Page { answer, bytes })
}
