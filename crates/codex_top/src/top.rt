//! The program's one call.

ghost use Rattle.std.specs.Prelude.{◌≡◌, map, string_bytes};
ghost use Rattle.codex_top.specs.Outside.{outside, told, IsCounted};
ghost use Rattle.codex_top.specs.Words.{IsAllowed};
ghost use Rattle.codex_top.specs.Jobs.{work_of};
ghost use Rattle.codex_top.specs.Endings.{IsTold};
ghost use Rattle.codex_top.specs.Calls.{IsOfCodex, call_of};
ghost use Rattle.codex_top.specs.Commands.{Does, Ends, JobEnds};

use crate::Status;
use crate::asm::asm;
use crate::check::check;
use crate::compile::compile;
use crate::debug::debug;
use crate::dis::dis;
use crate::draw::draw;
use crate::end::End;
use crate::eval::eval;
use crate::line::Line;
use crate::resume::resume;
use crate::run::run;
use crate::save::save;
use crate::selftest::selftest;
use crate::trace::trace;
use crate::types::types;
use crate::words::{Job, job_of};
use std::alloc::Global;
use umix_base::{Shelf, Sink, Source};

/// Does what the words of a command line ask for, without the program's name: reads and writes
/// files on the shelf, takes input, writes output, and writes on `err` just the line of the status,
/// or nothing where the status has none. If writing the line fails, `err` has received a beginning
/// of it and the status is `WriteFault`. See docs/COMMANDS.md.
pub fn codex<F: Shelf, I: Source, O: Sink, E: Sink>(
    alloc: Global,
    words: &Vec<String>,
    shelf: &mut F,
    input: &mut I,
    out: &mut O,
    err: &mut E,
) -> Status
    ensures does { let seen = outside F.Shelf I.Source O.Sink in
        Does (map string_bytes words.now.items) (seen shelf.old input.old out.old)
        (seen shelf.new input.new out.new) (told E.Sink err.old) (told E.Sink err.new) result }
    ensures counted { let seen = outside F.Shelf I.Source O.Sink in
        IsCounted (seen shelf.old input.old out.old) (seen shelf.new input.new out.new) }
    ensures call { let seen = outside F.Shelf I.Source O.Sink in
        IsOfCodex (call_of (map string_bytes words.now.items)
        (seen shelf.old input.old out.old) (seen shelf.new input.new out.new)
        (told E.Sink err.old) (told E.Sink err.new) result) }
{
    let end = end_of_words(alloc, words, shelf, input, out);
    tell(end, err)
}

// does the job that the words ask for
fn end_of_words<F: Shelf, I: Source, O: Sink>(
    alloc: Global,
    words: &Vec<String>,
    shelf: &mut F,
    input: &mut I,
    out: &mut O,
) -> End
    ensures ends { let seen = outside F.Shelf I.Source O.Sink in
        Ends (map string_bytes words.now.items)
        (seen shelf.old input.old out.old) (seen shelf.new input.new out.new) result }
    ensures counted { let seen = outside F.Shelf I.Source O.Sink in
        IsCounted (seen shelf.old input.old out.old) (seen shelf.new input.new out.new) }
{
    match job_of(alloc, words)? {
        Some(job) => work(alloc, job, shelf, input, out),
        None => Err(Line::Usage),
    }
}

// does a job
fn work<F: Shelf, I: Source, O: Sink>(
    alloc: Global,
    job: Job<'_>,
    shelf: &mut F,
    input: &mut I,
    out: &mut O,
) -> End
    requires { IsAllowed (work_of job) }
    ensures ends { let seen = outside F.Shelf I.Source O.Sink in
        JobEnds (work_of job.entry)
        (seen shelf.old input.old out.old) (seen shelf.new input.new out.new) result }
    ensures counted { let seen = outside F.Shelf I.Source O.Sink in
        IsCounted (seen shelf.old input.old out.old) (seen shelf.new input.new out.new) }
{
    match job {
        Job::Check { file } => check(alloc, file, shelf, out),
        Job::Eval {
            file,
            picks,
            events,
        } => eval(alloc, file, &picks, events, shelf, out),
        Job::Trace {
            file,
            picks,
            events,
        } => trace(alloc, file, &picks, events, shelf, out),
        Job::Compile { file, out } => compile(alloc, file, out, shelf),
        Job::Run { file, cycles } => run(alloc, file, cycles, shelf, input, out),
        Job::Asm { file, out } => asm(alloc, file, out, shelf),
        Job::Dis { file } => dis(alloc, file, shelf, out),
        Job::Debug { file, input: bytes } => debug(alloc, file, bytes, shelf, input, out),
        Job::Selftest { number } => selftest(alloc, number, out),
        Job::Draw { file } => draw(alloc, file, shelf, out),
        Job::Types { file, sheet } => types(alloc, file, sheet, shelf, out),
        Job::Save {
            file,
            cycles,
            out: image,
        } => save(alloc, file, cycles, image, shelf, input, out),
        Job::Resume { file, cycles } => resume(alloc, file, cycles, shelf, input, out),
    }
}

// writes the line of the end, and gives the status
fn tell<E: Sink>(end: End, err: &mut E) -> Status
    ensures { IsTold (told E.Sink err.old) (told E.Sink err.new) end result }
{
    match end {
        Ok(finish) => finish.status(),
        Err(line) => match line.put(err) {
            Ok(()) => line.status(),
            Err(_) => Status::WriteFault,
        },
    }
}

#[cfg(test)]
mod tests;
