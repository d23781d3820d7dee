ghost use Rattle.std.specs.Prelude.{◌≡◌, ◌≢◌, ◌<◌, ◌≤◌, ◌^◌, ◌+◌, ◌-◌, [], ◌∷◌, length, Some, IfOk, IfSome, OnOk, Err};
ghost use Rattle.std.specs.Option.{option_map};
ghost use Rattle.codex_values.specs.Store.{values_of};
ghost use Rattle.two_d.specs.Meaning.{Meaning, Outcome};
ghost use Rattle.two_d.specs.Steps as steps;
ghost use Rattle.two_d.specs.Steps.{HasMeaning};
ghost use Rattle.two_d.specs.Texts.{IsOutcomeOf, IsPlaceIn, outcome_in};
ghost use Rattle.two_d.specs.Trails.{trails_of};
ghost use Rattle.fire_core.specs.Cores.{IsCoreOf};
ghost use Rattle.fire_core.specs.Events.{events_shown};
ghost use Rattle.fire_eval.specs.Evaluation.{choice_of, HasPicks};

use crate::picks::place;
use crate::{EvalFault, Picks, Report};
use fire_core::{Core, Event};
use std::alloc::Global;
use two_d::Program;
use umix_base::Memory;

/// Evaluates a program: makes events by the picks until instance 0 has ended or so many were made.
pub fn eval(
    alloc: Global,
    program: &Program,
    picks: &Picks,
    budget: u64,
) -> Result<Report, EvalFault>
    requires { budget ≤ 2 ^ 62 }
    ensures has_picks { IfOk result (λ report. HasPicks picks.now) }
    ensures empty { result ≡ Err EvalFault.EmptyPicks → HasPicks picks.now → ⊥ }
    ensures log { IfOk result (λ report. events_shown report.log.items
        ≡ steps.events_of program.now (choice_of picks.now) budget) }
    ensures outcome { IfOk result (λ report.
        option_map (outcome_in (values_of report.values) (trails_of report.trails)) report.outcome
        ≡ (steps.instance_at (steps.after program.now (steps.start program.now)
        (events_shown report.log.items)) 0).outcome) }
    ensures places { IfOk result (λ report.
        IfSome report.outcome (IsPlaceIn (length report.values) (length report.trails))) }
    ensures events { IfOk result (λ report. report.events ≡ length report.log.items) }
    ensures firings { IfOk result (λ report. report.firings ≡ steps.fires_in (events_shown report.log.items)) }
    ensures instances { IfOk result (λ report. report.instances
        ≡ length (steps.after program.now (steps.start program.now) (events_shown report.log.items))) }

    // The exact place of `None`: it gives the program's outcome where the budget serves, and only there.
    ensures means { IfOk result (λ report. (r : Meaning) → HasMeaning program.now r → r.firings + r.instances ≤ budget
        → option_map (outcome_in (values_of report.values) (trails_of report.trails)) report.outcome ≡ Some r.outcome) }
    ensures only { IfOk result (λ report. (o : Outcome)
        → option_map (outcome_in (values_of report.values) (trails_of report.trails)) report.outcome ≡ Some o
        → (r : Meaning) × HasMeaning program.now r × (r.outcome ≡ o) × (r.firings + r.instances ≤ budget)) }

    // Within a budget that serves, it takes just the firings and instances of the program's outcome.
    ensures counts { IfOk result (λ report. (r : Meaning) → HasMeaning program.now r → r.firings + r.instances ≤ budget
        → (report.firings ≡ r.firings) × (report.instances ≡ r.instances) × (report.events ≡ r.firings + r.instances)) }

    // Its trail is of the program, as `text` asks.
    ensures of_program { IfOk result (λ report. (o : Outcome)
        → option_map (outcome_in (values_of report.values) (trails_of report.trails)) report.outcome
        ≡ Some o → IsOutcomeOf program.now o) }
{
    if !picks.serves() {
        return Err(EvalFault::EmptyPicks);
    }
    let _modules = program.modules();
    let mut core = Core::start(alloc, program)?;
    let mut log = Vec::new(alloc);
    run(&mut core, program, picks, budget, &mut log)?;
    let outcome = core.outcome();
    let instances = core.instances();
    let firings = firings_in(&log);
    let (values, trails) = core.into_stores();
    Ok(Report {
        outcome,
        events: log.len() as u64,
        firings,
        instances,
        log,
        values,
        trails,
    })
}

/// How many of the events are firings.
fn firings_in(log: &[Event]) -> u64
    ensures { result ≡ steps.fires_in (events_shown log.now) }
{
    let mut firings = 0;
    for event in log {
        firings = counted(firings, *event);
    }
    firings
}

fn counted(firings: u64, event: Event) -> u64
    requires { firings < 2 ^ 64 - 1 }
    ensures { result ≡ firings + steps.fires_in (events_shown (event ∷ [])) }
{
    match event {
        Event::Fire(_, _) => firings + 1,
        Event::End(_) => firings,
    }
}

/// Makes events by the picks until instance 0 has ended or so many were made.
fn run(
    core: &mut Core,
    program: &Program,
    picks: &Picks,
    budget: u64,
    log: &mut Vec<Event>,
) -> Result<(), Memory>
    requires picks { HasPicks picks.now }
    requires budget { budget ≤ 2 ^ 62 }
    requires core { IsCoreOf program.now core.old }
    requires start { core.old.table ≡ steps.start program.now }
    requires empty { log.old.items ≡ [] }
    ensures log { OnOk result (events_shown log.new.items ≡ steps.events_of program.now (choice_of picks.now) budget) }
    ensures table { OnOk result (core.new.table
        ≡ steps.after program.now (steps.start program.now) (events_shown log.new.items)) }
{
    for made in 0..budget {
        if core.outcome().is_some() {
            return Ok(());
        }
        match place(picks, made, core.ready_len(program)) {
            None => return Ok(()),
            Some(k) => {
                let event = core.ready_at(program, k);
                core.step(program, event)?;
                log.push(event)?;
            }
        }
    }
    Ok(())
}
