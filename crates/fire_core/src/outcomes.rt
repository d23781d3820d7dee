//! What an instance has come to when it ends.

ghost use Rattle.std.specs.Prelude.{◌≡◌, ◌<◌, ℕ, List, [], ◌∷◌, ◌++◌, length, Some, IfOk};
ghost use Rattle.std.specs.Option.{option_map};
ghost use Rattle.codex_values.specs.Value.{Value};
ghost use Rattle.codex_values.specs.Store.{value_in};
ghost use Rattle.two_d.specs.Meaning as mean;
ghost use Rattle.two_d.specs.Programs.{Program, module_of, module_at, box_count};
ghost use Rattle.two_d.specs.Steps as steps;
ghost use Rattle.two_d.specs.Texts.{outcome_in};
ghost use Rattle.two_d.specs.Trails.{Trail, KeepsTrails, trail_in, trail_of, trails_of};
ghost use Rattle.fire_core.specs.inner.Outcomes.{IsCarried, IsEndOf, CarriedFits, TrailFits};
ghost use Rattle.fire_core.specs.inner.Outcomes.{value_listed};
ghost use Rattle.fire_core.specs.inner.Rows.{row_of, instance_in, cell_in, CellFits, IsPlace, OutcomeFits, RowFits};

use crate::act::Spot;
use crate::look::look;
use crate::rows::{Cell, Row};
use two_d::{Module, Origin, Outcome, Site, Trail as TrailNode, TrailStore};
use umix_base::Memory;

/// What the exits of an instance carry.
#[derive(Clone, Copy)]
enum Carried {
    Nothing,
    One(usize),
    More,
}

/// The outcome of an instance that ends.
pub(crate) fn outcome_of(
    row: &Row,
    module: &Module,
    trails: &mut TrailStore,
) -> Result<Outcome, Memory>
    ensures outcome { (P : Program) (values : List Value) → module_at P row.now.kind ≡ module_of «module».now
        → length row.now.cells.items ≡ box_count P row.now.kind
        → IfOk result (IsEndOf P values (trails_of trails.old) (trails_of trails.new)
        (row_of row.now)) }
    ensures fits { (n : ℕ) → RowFits n (length trails.old) (row_of row.now)
        → IfOk result (λ outcome. OutcomeFits n (length trails.new) (Some outcome)) }
    ensures keeps { KeepsTrails trails.old trails.new }
{
    match first_stuck(row) {
        Some(at) => Ok(Outcome::Stuck(at)),
        None => match at_exits(row, &module.exits) {
            Carried::One(at) => Ok(Outcome::Value(at)),
            Carried::Nothing => ended_at(trails, Site::NoResult(row.kind)),
            Carried::More => ended_at(trails, Site::TwoResults(row.kind)),
        },
    }
}

/// An instance that is stuck by itself.
fn ended_at(trails: &mut TrailStore, site: Site) -> Result<Outcome, Memory>
    ensures outcome { (values : List Value) →
        IfOk result (λ outcome. outcome_in values (trails_of trails.new) outcome
        ≡ mean.Stuck (trail_of site)) }
    ensures fits { (n : ℕ) → IfOk result (λ outcome. OutcomeFits n (length trails.new) (Some outcome)) }
    ensures keeps { KeepsTrails trails.old trails.new }
{
    let at = trails.add(TrailNode::At(site))?;
    Ok(Outcome::Stuck(at))
}

/// The trail of the first stuck box.
fn first_stuck(row: &Row) -> Option<usize>
    ensures trail { (values : List Value) (trails : List Trail) → option_map (trail_in trails) result
        ≡ mean.first_below (length row.now.cells.items)
        (λ b. mean.stuck_of (steps.fired (instance_in values trails (row_of row.now)) b)) }
    ensures place { (n t : ℕ) → RowFits n t (row_of row.now) → IsPlace t result }
{
    for bx in 0..row.cells.len() {
        match stuck_box(row, bx) {
            Some(at) => return Some(at),
            None => {}
        }
    }
    None
}

/// The trail of a box, if it is stuck.
fn stuck_box(row: &Row, bx: usize) -> Option<usize>
    ensures trail { (values : List Value) (trails : List Trail) → option_map (trail_in trails) result
        ≡ mean.stuck_of (steps.fired (instance_in values trails (row_of row.now)) bx) }
    ensures place { (n t : ℕ) → RowFits n t (row_of row.now) → IsPlace t result }
{
    match row.cells.get(bx) {
        Some(Some(cell)) => cell.stuck,
        _ => None,
    }
}

/// What the exits carry.
fn at_exits(row: &Row, exits: &[Option<Origin>]) -> Carried
    ensures carried { (values : List Value) (trails : List Trail)
        → IsCarried values result (mean.carried_by
        (steps.wires (instance_in values trails (row_of row.now))) exits.now) }
    ensures fits { (n t : ℕ) → RowFits n t (row_of row.now) → CarriedFits n result }
{
    let mut found = Carried::Nothing;
    for exit in exits {
        found = joined(found, at_exit(row, *exit));
    }
    found
}

/// The place of the value that an exit carries.
fn at_exit(row: &Row, exit: Option<Origin>) -> Option<usize>
    ensures value { (values : List Value) (trails : List Trail) → value_listed (option_map (value_in values) result)
        ≡ mean.carried_by (steps.wires (instance_in values trails (row_of row.now))) (exit ∷ []) }
    ensures place { (n t : ℕ) → RowFits n t (row_of row.now) → IsPlace n result }
{
    match exit {
        None => None,
        Some(origin) => look(row, origin),
    }
}

/// What the exits carry with one value more, if there is one.
fn joined(found: Carried, at: Option<usize>) -> Carried
    ensures carried { (values carried : List Value) → IsCarried values found carried →
        IsCarried values result (carried ++ value_listed (option_map (value_in values) at)) }
    ensures fits { (n : ℕ) → CarriedFits n found → IsPlace n at → CarriedFits n result }
{
    match at {
        None => found,
        Some(place) => match found {
            Carried::Nothing => Carried::One(place),
            Carried::One(_) => Carried::More,
            Carried::More => Carried::More,
        },
    }
}

/// What the box at `spot` has come to where the instance that it started has ended.
pub(crate) fn returned(
    trails: &mut TrailStore,
    spot: Spot,
    outcome: Outcome,
) -> Result<Cell, Memory>
    requires { TrailFits (length trails.old) outcome }
    ensures cell { (values : List Value) → IfOk result (λ cell. cell_in values (trails_of trails.new) cell
        ≡ mean.returned spot.kind spot.bx (outcome_in values (trails_of trails.old) outcome)) }
    ensures fits { (n : ℕ) → OutcomeFits n (length trails.old) (Some outcome) →
        IfOk result (λ cell. CellFits n (length trails.new) (Some cell)) }
    ensures keeps { KeepsTrails trails.old trails.new }
{
    match outcome {
        Outcome::Value(at) => Ok(Cell {
            south: None,
            east: Some(at),
            stuck: None,
        }),
        Outcome::Stuck(inner) => {
            let at = trails.add(TrailNode::Via(spot.kind, spot.bx, inner))?;
            Ok(Cell {
                south: None,
                east: None,
                stuck: Some(at),
            })
        }
    }
}
