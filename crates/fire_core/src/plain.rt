//! What modules mean, computed as it is defined: each value is pulled from where it comes.

ghost use Rattle.std.specs.Prelude.{◌≡◌, length, IfOk, IfSome};
ghost use Rattle.std.specs.Option.{option_map};
ghost use Rattle.two_d.specs.Meaning as mean;
ghost use Rattle.two_d.specs.Meaning.{no_inputs};
ghost use Rattle.two_d.specs.Programs.{main_of};
ghost use Rattle.two_d.specs.Texts.{IsPlaceIn};
ghost use Rattle.fire_core.specs.Plain.{given_by, with_stops};

mod boxes;
mod rounds;

use crate::look::Inputs;
use codex_values::ValueStore;
use rounds::mean_at;
use std::alloc::Global;
use two_d::{Outcome, Program, TrailStore};
use umix_base::Memory;

/// What a program means: its outcome, whose place is in its store, and the firings and instances
/// that it takes. A count that would pass 2^64 - 1 stops there.
#[derive(Drop)]
pub struct Meant {
    pub outcome: Outcome,
    pub firings: u64,
    pub instances: u64,
    pub values: ValueStore,
    pub trails: TrailStore,
}

/// What a program means by uses that are nested less than `depth` deep, where it means something
/// by them. It is computed as it is defined, from no events: each value is pulled from where it
/// comes. Slow on purpose: whenever values are pulled through one box more, each use is asked anew,
/// so the time is exponential in the depth, and the stores keep all that was made. The stack grows
/// with the depth at which uses are nested, up to `depth`.
pub fn mean(alloc: Global, program: &Program, depth: u64) -> Result<Option<Meant>, Memory>
    ensures means { IfOk result (λ meant. option_map given_by meant
        ≡ option_map with_stops (mean.mean program.now depth (main_of program.now) no_inputs)) }
    ensures places { IfOk result (λ meant. IfSome meant
        (λ it. IsPlaceIn (length it.values) (length it.trails) it.outcome)) }
{
    let mut values = ValueStore::new(alloc);
    let mut trails = TrailStore::new(alloc);
    let inputs = Inputs {
        north: None,
        west: None,
    };
    let _modules = program.modules();
    let main = program.main();
    match mean_at(
        alloc,
        program,
        &mut values,
        &mut trails,
        depth,
        main,
        inputs,
    )? {
        None => Ok(None),
        Some(known) => Ok(Some(Meant {
            outcome: known.outcome,
            firings: known.firings,
            instances: known.instances,
            values,
            trails,
        })),
    }
}
