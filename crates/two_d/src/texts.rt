//! The texts of outcomes.

ghost use Rattle.std.specs.Prelude.{◌≡◌, ◌≢◌, ◌<◌, [], ◌∷◌, ◌++◌, All, codes, length, reverse, IfOk, Err, IsErrOf};
ghost use Rattle.umix_base.specs.Causes.{HasCause, HasCauseIf, KeepsTelling};
ghost use Rattle.codex_values.specs.Store.{values_of, value_at};
ghost use Rattle.codex_values.specs.Value.{show};
ghost use Rattle.codex_values.specs.Writing.{Writes};
ghost use Rattle.two_d.specs.Texts.{text_of, site_line, caller_line, caller_lines, outcome_in};
ghost use Rattle.two_d.specs.Texts.{IsPlaceIn, IsOutcomeOf, IsTrailOf, IsSiteOf, HasBox};
ghost use Rattle.two_d.specs.Trails.{trails_of, trail_at};

use crate::pieces::{name_of, number_of};
use crate::{Outcome, Program, Site, Trail, TrailStore};
use codex_values::{PrintFault, ValueStore, put_all};
use itoa::Buffer;
use std::alloc::Global;
use umix_base::{Failed, Sink};

/// Writes the text of an outcome of the program. After a fault a prefix of it was written.
pub fn text<S: Sink>(
    alloc: Global,
    program: &Program,
    values: &ValueStore,
    trails: &TrailStore,
    outcome: &Outcome,
    sink: &mut S,
) -> Result<(), PrintFault>
    requires place { IsPlaceIn (length values.now) (length trails.now) outcome.now }
    requires of_program { IsOutcomeOf program.now
        (outcome_in (values_of values.now) (trails_of trails.now) outcome.now) }
    ensures written { Writes (text_of program.now
        (outcome_in (values_of values.now) (trails_of trails.now) outcome.now))
        (S.written sink.old) (S.written sink.new) result }
    ensures tells { KeepsTelling (S.written sink.old) (S.written sink.new) }
    ensures cause { HasCauseIf (IsErrOf result PrintFault.Write)
        (S.faults sink.old) (S.faults sink.new) }
{
    match outcome {
        Outcome::Value(at) => put_value(alloc, values, *at, sink),
        Outcome::Stuck(at) => put_trail(alloc, program, trails, *at, sink),
    }
}

fn put_value<S: Sink>(
    alloc: Global,
    values: &ValueStore,
    at: usize,
    sink: &mut S,
) -> Result<(), PrintFault>
    requires { at < length values.now }
    ensures written { Writes (show (value_at values.now at) ++ codes "\n")
        (S.written sink.old) (S.written sink.new) result }
    ensures tells { KeepsTelling (S.written sink.old) (S.written sink.new) }
    ensures cause { HasCauseIf (IsErrOf result PrintFault.Write)
        (S.faults sink.old) (S.faults sink.new) }
{
    values.print(alloc, at, sink)?;
    sink.put(b"\n")?;
    Ok(())
}

fn put_trail<S: Sink>(
    alloc: Global,
    program: &Program,
    trails: &TrailStore,
    at: usize,
    sink: &mut S,
) -> Result<(), PrintFault>
    requires place { at < length trails.now }
    requires of_program { IsTrailOf program.now (trail_at trails.now at) }
    ensures written { Writes (site_line program.now (trail_at trails.now at).site
        ++ caller_lines program.now (trail_at trails.now at).callers)
        (S.written sink.old) (S.written sink.new) result }
    ensures tells { KeepsTelling (S.written sink.old) (S.written sink.new) }
    ensures cause { HasCauseIf (IsErrOf result PrintFault.Write)
        (S.faults sink.old) (S.faults sink.new) }
{
    let (site, callers) = opened(alloc, trails, at)?;
    put_site(program, site, sink)?;
    put_callers(program, callers, sink)?;
    Ok(())
}

/// The site of a trail, and its callers, the outermost first.
fn opened(
    alloc: Global,
    trails: &TrailStore,
    at: usize,
) -> Result<(Site, Vec<(usize, usize)>), PrintFault>
    requires { at < length trails.now }
    ensures site { IfOk result (λ trail. trail.0 ≡ (trail_at trails.now at).site) }
    ensures callers { IfOk result (λ trail. reverse trail.1.items ≡ (trail_at trails.now at).callers) }
    ensures err { result ≢ Err PrintFault.Write }
{
    let mut callers = Vec::new(alloc);
    let mut place = at;
    loop {
        match trails.node(place) {
            Trail::At(site) => return Ok((site, callers)),
            Trail::Via(module, bx, inner) => {
                callers.push((module, bx))?;
                place = inner;
            }
        }
    }
}

fn put_site<S: Sink>(program: &Program, site: Site, sink: &mut S) -> Result<(), Failed>
    requires { IsSiteOf program.now site }
    ensures written { Writes (site_line program.now site) (S.written sink.old) (S.written sink.new) result }
    ensures tells { KeepsTelling (S.written sink.old) (S.written sink.new) }
    ensures cause { HasCause (S.faults sink.old) (S.faults sink.new) result }
{
    let mut buffer = Buffer::new();
    match site {
        Site::NoSum(module, bx) => {
            let number = buffer.format(number_of(program, module, bx)).as_bytes();
            put_all(
                sink,
                &[
                    b"stuck: ",
                    name_of(program, module),
                    b" box ",
                    number,
                    b": no sum\n",
                ],
            )
        }
        Site::NoPair(module, bx) => {
            let number = buffer.format(number_of(program, module, bx)).as_bytes();
            put_all(
                sink,
                &[
                    b"stuck: ",
                    name_of(program, module),
                    b" box ",
                    number,
                    b": no pair\n",
                ],
            )
        }
        Site::NoResult(module) => put_all(
            sink,
            &[b"stuck: ", name_of(program, module), b": no result\n"],
        ),
        Site::TwoResults(module) => put_all(
            sink,
            &[b"stuck: ", name_of(program, module), b": two results\n"],
        ),
    }
}

/// The lines of callers, of which the last in the list comes first.
fn put_callers<S: Sink>(
    program: &Program,
    mut callers: Vec<(usize, usize)>,
    sink: &mut S,
) -> Result<(), Failed>
    requires { All (HasBox program.now) (reverse callers.items) }
    ensures written { Writes (caller_lines program.now (reverse callers.items)) (S.written sink.old)
        (S.written sink.new) result }
    ensures tells { KeepsTelling (S.written sink.old) (S.written sink.new) }
    ensures cause { HasCause (S.faults sink.old) (S.faults sink.new) result }
{
    while let Some(caller) = callers.pop() {
        put_caller(program, caller, sink)?;
    }
    Ok(())
}

fn put_caller<S: Sink>(
    program: &Program,
    caller: (usize, usize),
    sink: &mut S,
) -> Result<(), Failed>
    requires { HasBox program.now caller }
    ensures written { Writes (caller_line program.now caller) (S.written sink.old) (S.written sink.new) result }
    ensures tells { KeepsTelling (S.written sink.old) (S.written sink.new) }
    ensures cause { HasCause (S.faults sink.old) (S.faults sink.new) result }
{
    let mut buffer = Buffer::new();
    let (module, bx) = caller;
    let number = buffer.format(number_of(program, module, bx)).as_bytes();
    put_all(
        sink,
        &[b"  in ", name_of(program, module), b" box ", number, b"\n"],
    )
}
