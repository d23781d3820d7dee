//! What a box comes to, where its instance's wires carry what a row says.

ghost use Rattle.std.specs.Prelude.{◌≡◌, ◌<◌, ℕ, List, length, None, Some, IfOk};
ghost use Rattle.std.specs.Option.{option_map};
ghost use Rattle.codex_values.specs.Value.{Value};
ghost use Rattle.codex_values.specs.Store.{Keeps, values_of};
ghost use Rattle.two_d.specs.Meaning as mean;
ghost use Rattle.two_d.specs.Meaning.{Answers};
ghost use Rattle.two_d.specs.Programs.{box_count};
ghost use Rattle.two_d.specs.Trails.{Trail, KeepsTrails, trails_of};
ghost use Rattle.fire_core.specs.inner.Acts.{effect_in};
ghost use Rattle.fire_core.specs.inner.Plain.{EffectFitsIn, IsFired, IsFiredByUse, KnownFits};
ghost use Rattle.fire_core.specs.inner.Plain.{effects_in};
ghost use Rattle.fire_core.specs.inner.Rows.{CellFits, RowFits, cell_in, row_of};

use crate::act::{Effect, Spot, act};
use crate::look::inputs_of;
use crate::outcomes::returned;
use crate::rows::{Cell, Row};
use codex_values::ValueStore;
use two_d::{Outcome, Program, TrailStore};
use umix_base::Memory;

/// What an instance means, by a place of the stores.
#[derive(Clone, Copy)]
pub(crate) struct Known {
    pub(crate) outcome: Outcome,
    pub(crate) firings: u64,
    pub(crate) instances: u64,
}

/// What a box comes to, whether that is known, and the firings and instances that it takes.
#[derive(Clone, Copy)]
pub(crate) struct Fired {
    pub(crate) cell: Option<Cell>,
    pub(crate) known: bool,
    pub(crate) firings: u64,
    pub(crate) instances: u64,
}

/// What a box does, if it is enabled.
pub(crate) fn effect_at(
    program: &Program,
    values: &mut ValueStore,
    trails: &mut TrailStore,
    row: &Row,
    bx: usize,
) -> Result<Option<Effect>, Memory>
    requires kind { row.now.kind < length program.now }
    requires there { bx < box_count program.now row.now.kind }
    requires fits { RowFits (length values.old) (length trails.old) (row_of row.now) }
    ensures effect { IfOk result (λ effect.
        option_map (effect_in (values_of values.new) (trails_of trails.new)) effect
        ≡ effects_in program.now (values_of values.old) (trails_of trails.old) (row_of row.now) bx) }
    ensures fits { IfOk result
        (EffectFitsIn (length program.now) (length values.new) (length trails.new)) }
    ensures keeps { Keeps values.old values.new }
    ensures keeps_trails { KeepsTrails trails.old trails.new }
{
    let modules = program.modules();
    let module = &modules[row.kind];
    let form = &module.boxes[bx];
    match inputs_of(row, form) {
        None => Ok(None),
        Some(inputs) => {
            let spot = Spot { kind: row.kind, bx };
            let effect = act(program, values, trails, spot, &form.command, inputs)?;
            Ok(Some(effect))
        }
    }
}

/// A box that isn't enabled.
pub(crate) fn waiting() -> Fired
    ensures fired { (values : List Value) (trails : List Trail) (answer : Answers) (m b : ℕ)
        → IsFired values trails answer m b None result }
    ensures fits { (n t : ℕ) → CellFits n t result.cell }
{
    Fired {
        cell: None,
        known: true,
        firings: 0,
        instances: 0,
    }
}

/// A box that is done at once.
pub(crate) fn done(cell: Cell) -> Fired
    ensures fired { (values : List Value) (trails : List Trail) (answer : Answers) (m b : ℕ)
        → IsFired values trails answer m b (Some (mean.Done (cell_in values trails cell))) result }
    ensures fits { (n t : ℕ) → CellFits n t (Some cell) → CellFits n t result.cell }
{
    Fired {
        cell: Some(cell),
        known: true,
        firings: 1,
        instances: 0,
    }
}

/// A box whose use means this, as far as that is known.
pub(crate) fn used(
    trails: &mut TrailStore,
    spot: Spot,
    known: Option<Known>,
) -> Result<Fired, Memory>
    requires { (n : ℕ) × KnownFits n (length trails.old) known }
    ensures fired { IsFiredByUse known (trails_of trails.old) (trails_of trails.new)
        spot.kind spot.bx result }
    ensures fits { (n : ℕ) → KnownFits n (length trails.old) known
        → IfOk result (λ fired. CellFits n (length trails.new) fired.cell) }
    ensures keeps { KeepsTrails trails.old trails.new }
{
    match known {
        None => Ok(Fired {
            cell: Some(Cell {
                south: None,
                east: None,
                stuck: None,
            }),
            known: false,
            firings: 1,
            instances: 0,
        }),
        Some(inner) => {
            let cell = returned(trails, spot, inner.outcome)?;
            Ok(Fired {
                cell: Some(cell),
                known: true,
                firings: inner.firings.saturating_add(1),
                instances: inner.instances,
            })
        }
    }
}
