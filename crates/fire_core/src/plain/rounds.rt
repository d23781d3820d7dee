//! What an instance means, by rounds: after each its wires carry what is pulled through one box more.

ghost use Rattle.std.specs.Prelude.{◌≡◌, ◌<◌, ◌+◌, ◌++◌, ◌∷◌, [], ◌&&◌, ℕ, length, Some, IfOk};
ghost use Rattle.std.specs.Prelude.{OnOk};
ghost use Rattle.std.specs.Option.{option_map};
ghost use Rattle.codex_values.specs.Store.{Keeps, values_of};
ghost use Rattle.two_d.specs.Meaning as mean;
ghost use Rattle.two_d.specs.Meaning.{act, look_of};
ghost use Rattle.two_d.specs.Programs.{box_count};
ghost use Rattle.two_d.specs.Texts.{IsPlaceIn};
ghost use Rattle.two_d.specs.Trails.{KeepsTrails, trails_of};
ghost use Rattle.fire_core.specs.inner.Look.{InputsFit, inputs_at};
ghost use Rattle.fire_core.specs.inner.Plain.{CellsFit, IsFired, IsRound, IsRowOf, KnownFits};
ghost use Rattle.fire_core.specs.inner.Plain.{MeansBySum};
ghost use Rattle.fire_core.specs.inner.Plain.{effects_in, known_in, row_for};
ghost use Rattle.fire_core.specs.inner.Rows.{CellFits, RowFits, row_of};
ghost use Rattle.fire_core.specs.Plain.{stopped, with_stops};

use crate::act::{Effect, Spot};
use crate::look::Inputs;
use crate::outcomes::outcome_of;
use crate::plain::boxes::{Fired, Known, done, effect_at, used, waiting};
use crate::rows::{Cell, Row};
use codex_values::ValueStore;
use std::alloc::Global;
use two_d::{Program, TrailStore};
use umix_base::Memory;

/// What the boxes of an instance come to, whether that is known of all, and what it takes.
#[derive(Drop)]
struct Round {
    cells: Vec<Option<Cell>>,
    known: bool,
    firings: u64,
    instances: u64,
}

/// What a module means at these inputs, by uses that are nested less than `depth` deep.
#[cycle(plain)]
pub(crate) fn mean_at(
    alloc: Global,
    program: &Program,
    values: &mut ValueStore,
    trails: &mut TrailStore,
    depth: u64,
    kind: usize,
    inputs: Inputs,
) -> Result<Option<Known>, Memory>
    requires kind { kind < length program.now }
    requires fits { InputsFit (length values.old) (Some inputs) }
    ensures means { IfOk result (λ known.
        option_map (known_in (values_of values.new) (trails_of trails.new)) known
        ≡ option_map with_stops (mean.mean program.now depth kind (inputs_at (values_of values.old) inputs))) }
    ensures fits { IfOk result (KnownFits (length values.new) (length trails.new)) }
    ensures keeps { Keeps values.old values.new }
    ensures keeps_trails { KeepsTrails trails.old trails.new }
{
    if depth == 0 {
        return Ok(None);
    }
    let row = pulled(alloc, program, values, trails, depth - 1, kind, inputs)?;
    let round = next_round(alloc, program, values, trails, depth - 1, &row)?;
    if !round.known {
        return Ok(None);
    }
    let known = ended(program, trails, row, round)?;
    Ok(Some(known))
}

/// The row of an instance whose wires carry what is pulled through as many boxes as there are.
#[cycle(plain)]
fn pulled(
    alloc: Global,
    program: &Program,
    values: &mut ValueStore,
    trails: &mut TrailStore,
    depth: u64,
    kind: usize,
    inputs: Inputs,
) -> Result<Row, Memory>
    requires kind { kind < length program.now }
    requires fits { InputsFit (length values.old) (Some inputs) }
    ensures row { IfOk result (λ row. IsRowOf (values_of values.new) (trails_of trails.new) kind
        (inputs_at (values_of values.old) inputs)
        (look_of program.now (mean.mean program.now depth) kind (inputs_at (values_of values.old) inputs))
        (row_of row)) }
    ensures fits { IfOk result (λ row. RowFits (length values.new) (length trails.new) (row_of row)) }
    ensures keeps { Keeps values.old values.new }
    ensures keeps_trails { KeepsTrails trails.old trails.new }
{
    let mut row = row_with(kind, inputs, Vec::new(alloc));
    for _ in 0..program.modules()[kind].boxes.len() {
        let next = next_round(alloc, program, values, trails, depth, &row)?;
        row = row_with(kind, inputs, next.cells);
    }
    Ok(row)
}

/// What all boxes come to, where the wires of their instance carry what the row says.
#[cycle(plain)]
fn next_round(
    alloc: Global,
    program: &Program,
    values: &mut ValueStore,
    trails: &mut TrailStore,
    depth: u64,
    row: &Row,
) -> Result<Round, Memory>
    requires kind { row.now.kind < length program.now }
    requires fits { RowFits (length values.old) (length trails.old) (row_of row.now) }
    ensures round { IfOk result (IsRound (values_of values.new) (trails_of trails.new)
        (mean.mean program.now depth) row.now.kind
        (effects_in program.now (values_of values.old) (trails_of trails.old) (row_of row.now))
        (box_count program.now row.now.kind)) }
    ensures fits { IfOk result
        (λ round. CellsFit (length values.new) (length trails.new) round.cells.items) }
    ensures keeps { Keeps values.old values.new }
    ensures keeps_trails { KeepsTrails trails.old trails.new }
{
    let mut round = Round {
        cells: Vec::new(alloc),
        known: true,
        firings: 0,
        instances: 0,
    };
    for bx in 0..program.modules()[row.kind].boxes.len() {
        let fired = fired(alloc, program, values, trails, depth, row, bx)?;
        add(&mut round, fired)?;
    }
    Ok(round)
}

/// What box `bx` comes to. A use is asked what its module means.
#[cycle(plain)]
fn fired(
    alloc: Global,
    program: &Program,
    values: &mut ValueStore,
    trails: &mut TrailStore,
    depth: u64,
    row: &Row,
    bx: usize,
) -> Result<Fired, Memory>
    requires kind { row.now.kind < length program.now }
    requires there { bx < box_count program.now row.now.kind }
    requires fits { RowFits (length values.old) (length trails.old) (row_of row.now) }
    ensures fired { IfOk result (IsFired (values_of values.new) (trails_of trails.new)
        (mean.mean program.now depth) row.now.kind bx
        (effects_in program.now (values_of values.old) (trails_of trails.old) (row_of row.now) bx)) }
    ensures fits { IfOk result
        (λ fired. CellFits (length values.new) (length trails.new) fired.cell) }
    ensures keeps { Keeps values.old values.new }
    ensures keeps_trails { KeepsTrails trails.old trails.new }
{
    match effect_at(program, values, trails, row, bx)? {
        None => Ok(waiting()),
        Some(Effect::Done(cell)) => Ok(done(cell)),
        Some(Effect::Starts(kind, inputs)) => {
            let answer = mean_at(alloc, program, values, trails, depth, kind, inputs)?;
            used(trails, Spot { kind: row.kind, bx }, answer)
        }
    }
}

/// One box more.
fn add(round: &mut Round, fired: Fired) -> Result<(), Memory>
    ensures cells { OnOk result (round.new.cells.items ≡ round.old.cells.items ++ fired.cell ∷ []) }
    ensures known { OnOk result (round.new.known ≡ round.old.known && fired.known) }
    ensures firings { OnOk result (round.new.firings ≡ stopped (round.old.firings + fired.firings)) }
    ensures instances { OnOk result
        (round.new.instances ≡ stopped (round.old.instances + fired.instances)) }
{
    round.cells.push(fired.cell)?;
    round.known = round.known && fired.known;
    round.firings = round.firings.saturating_add(fired.firings);
    round.instances = round.instances.saturating_add(fired.instances);
    Ok(())
}

/// The row of an instance that no box started.
fn row_with(kind: usize, inputs: Inputs, cells: Vec<Option<Cell>>) -> Row
    ensures { row_of result ≡ row_for kind inputs cells.items }
{
    Row {
        kind,
        parent: None,
        north: inputs.north,
        west: inputs.west,
        cells,
        inner: 0,
        outcome: None,
    }
}

/// What an instance means whose boxes have come to this.
fn ended(
    program: &Program,
    trails: &mut TrailStore,
    row: Row,
    round: Round,
) -> Result<Known, Memory>
    requires kind { row.kind < length program.now }
    ensures means { MeansBySum program.now (row_of row) round (trails_of trails.old)
        (trails_of trails.new) result }
    ensures fits { (n : ℕ) → RowFits n (length trails.old) (row_of row)
        → CellsFit n (length trails.old) round.cells.items
        → IfOk result (λ known. IsPlaceIn n (length trails.new) known.outcome) }
    ensures keeps { KeepsTrails trails.old trails.new }
{
    let inputs = Inputs {
        north: row.north,
        west: row.west,
    };
    let after = row_with(row.kind, inputs, round.cells);
    let outcome = outcome_of(&after, &program.modules()[row.kind], trails)?;
    Ok(Known {
        outcome,
        firings: round.firings,
        instances: round.instances.saturating_add(1),
    })
}
