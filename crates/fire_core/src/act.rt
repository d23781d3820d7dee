//! What a box does when it fires: places of values and trails, which are added to the stores.

ghost use Rattle.std.specs.Prelude.{◌≡◌, ◌<◌, ℕ, List, length, None, Some, IfOk};
ghost use Rattle.std.specs.Option.{option_map, unwrap_or};
ghost use Rattle.codex_values.specs.Value.{Value, unit};
ghost use Rattle.codex_values.specs.Store.{Keeps, value_at, value_in, values_of};
ghost use Rattle.two_d.specs.Meaning as mean;
ghost use Rattle.two_d.specs.Programs.{find};
ghost use Rattle.two_d.specs.Trails.{Trail, KeepsTrails, trail_of, trails_of};
ghost use Rattle.two_d.specs.Trees.{tree_of, form_of, outs_of};
ghost use Rattle.fire_core.specs.inner.Acts.{effect_in, EffectFits};
ghost use Rattle.fire_core.specs.inner.Look.{inputs_at, InputsFit};
ghost use Rattle.fire_core.specs.inner.Rows.{cell_in, CellFits, IsPlace};

use crate::look::Inputs;
use crate::rows::Cell;
use codex_values::{Shape, ValueStore};
use two_d::{Command, Exp, Program, Side, Site, Trail as TrailNode, TrailStore};
use umix_base::Memory;

/// What a box does: it is done at once, or it starts an instance of a module.
#[derive(Clone, Copy)]
pub(crate) enum Effect {
    Done(Cell),
    Starts(usize, Inputs),
}

/// Where a box stands: the number of its module, and its own.
#[derive(Clone, Copy)]
pub(crate) struct Spot {
    pub(crate) kind: usize,
    pub(crate) bx: usize,
}

/// What the box at `spot` with this command does with its inputs.
pub(crate) fn act(
    program: &Program,
    values: &mut ValueStore,
    trails: &mut TrailStore,
    spot: Spot,
    command: &Command,
    inputs: Inputs,
) -> Result<Effect, Memory>
    requires { InputsFit (length values.old) (Some inputs) }
    ensures effect { IfOk result (λ effect. effect_in (values_of values.new) (trails_of trails.new) effect
        ≡ mean.effect_of program.now spot.kind spot.bx (form_of command.now)
        (inputs_at (values_of values.old) inputs)) }
    ensures fits { IfOk result (λ effect. EffectFits (length values.new) (length trails.new) effect) }
    ensures keeps { Keeps values.old values.new }
    ensures keeps_trails { KeepsTrails trails.old trails.new }
{
    match command {
        Command::Send(outs) => Ok(Effect::Done(send(values, outs, inputs)?)),
        Command::Case(exp, left, right) => {
            let at = value_of(values, exp, inputs)?;
            let site = Site::NoSum(spot.kind, spot.bx);
            Ok(Effect::Done(chosen(values, trails, at, *left, *right, site)?))
        }
        Command::Split(exp) => {
            let at = value_of(values, exp, inputs)?;
            let site = Site::NoPair(spot.kind, spot.bx);
            Ok(Effect::Done(parts(values, trails, at, site)?))
        }
        Command::Call(name) => match program.find(name) {
            Some(kind) => Ok(Effect::Starts(kind, inputs)),
            None => Ok(Effect::Starts(program.modules().len(), inputs)),
        },
    }
}

/// Sends each value to its side.
fn send(values: &mut ValueStore, outs: &[(Exp, Side)], inputs: Inputs) -> Result<Cell, Memory>
    requires { InputsFit (length values.old) (Some inputs) }
    ensures south { IfOk result (λ cell. option_map (value_at values.new) cell.south
        ≡ mean.sent Side.S (outs_of outs.now) (inputs_at (values_of values.old) inputs)) }
    ensures east { IfOk result (λ cell. option_map (value_at values.new) cell.east
        ≡ mean.sent Side.E (outs_of outs.now) (inputs_at (values_of values.old) inputs)) }
    ensures stuck { IfOk result (λ cell. cell.stuck ≡ None) }
    ensures fits { IfOk result (λ cell. IsPlace (length values.new) cell.south ×
        IsPlace (length values.new) cell.east) }
    ensures keeps { Keeps values.old values.new }
{
    let south = sent(values, outs, Side::S, inputs)?;
    let east = sent(values, outs, Side::E, inputs)?;
    Ok(Cell {
        south,
        east,
        stuck: None,
    })
}

/// The value that is sent to a side.
fn sent(
    values: &mut ValueStore,
    outs: &[(Exp, Side)],
    side: Side,
    inputs: Inputs,
) -> Result<Option<usize>, Memory>
    requires { InputsFit (length values.old) (Some inputs) }
    ensures value { IfOk result (λ place. option_map (value_at values.new) place
        ≡ mean.sent side (outs_of outs.now) (inputs_at (values_of values.old) inputs)) }
    ensures fits { IfOk result (λ place. IsPlace (length values.new) place) }
    ensures keeps { Keeps values.old values.new }
{
    for out in outs {
        if out.1 == side {
            let at = value_of(values, &out.0, inputs)?;
            return Ok(Some(at));
        }
    }
    Ok(None)
}

/// Sends the content of a sum to one of two sides.
fn chosen(
    values: &ValueStore,
    trails: &mut TrailStore,
    at: usize,
    left: Side,
    right: Side,
    site: Site,
) -> Result<Cell, Memory>
    requires { at < length values.now }
    ensures cell { IfOk result (λ cell. cell_in (values_of values.now) (trails_of trails.new) cell
        ≡ mean.chosen left right (trail_of site) (value_at values.now at)) }
    ensures fits { IfOk result (λ cell. CellFits (length values.now) (length trails.new) (Some cell)) }
    ensures keeps { KeepsTrails trails.old trails.new }
{
    match values.shape(at) {
        Shape::Inl(inner) => Ok(sent_to(left, inner)),
        Shape::Inr(inner) => Ok(sent_to(right, inner)),
        Shape::Unit => stuck_at(trails, site),
        Shape::Pair(_, _) => stuck_at(trails, site),
    }
}

/// Sends the parts of a pair.
fn parts(
    values: &ValueStore,
    trails: &mut TrailStore,
    at: usize,
    site: Site,
) -> Result<Cell, Memory>
    requires { at < length values.now }
    ensures cell { IfOk result (λ cell. cell_in (values_of values.now) (trails_of trails.new) cell
        ≡ mean.parts (trail_of site) (value_at values.now at)) }
    ensures fits { IfOk result (λ cell. CellFits (length values.now) (length trails.new) (Some cell)) }
    ensures keeps { KeepsTrails trails.old trails.new }
{
    match values.shape(at) {
        Shape::Pair(left, right) => Ok(Cell {
            south: Some(left),
            east: Some(right),
            stuck: None,
        }),
        Shape::Unit => stuck_at(trails, site),
        Shape::Inl(_) => stuck_at(trails, site),
        Shape::Inr(_) => stuck_at(trails, site),
    }
}

/// A value goes to one side.
fn sent_to(side: Side, at: usize) -> Cell
    ensures cell { (values : List Value) (trails : List Trail) → cell_in values trails result
        ≡ mean.sent_to side (value_in values at) }
    ensures fits { (n t : ℕ) → at < n → CellFits n t (Some result) }
{
    match side {
        Side::S => Cell {
            south: Some(at),
            east: None,
            stuck: None,
        },
        Side::E => Cell {
            south: None,
            east: Some(at),
            stuck: None,
        },
    }
}

/// A box is stuck by itself.
fn stuck_at(trails: &mut TrailStore, site: Site) -> Result<Cell, Memory>
    ensures cell { (values : List Value) →
        IfOk result (λ cell. cell_in values (trails_of trails.new) cell
        ≡ mean.stuck_on (trail_of site)) }
    ensures fits { (n : ℕ) → IfOk result (λ cell. CellFits n (length trails.new) (Some cell)) }
    ensures keeps { KeepsTrails trails.old trails.new }
{
    let at = trails.add(TrailNode::At(site))?;
    Ok(Cell {
        south: None,
        east: None,
        stuck: Some(at),
    })
}

/// The value of an expression, as a place of the store.
pub(crate) fn value_of(values: &mut ValueStore, exp: &Exp, inputs: Inputs) -> Result<usize, Memory>
    requires { InputsFit (length values.old) (Some inputs) }
    ensures value { IfOk result (λ at. value_at values.new at
        ≡ mean.val (tree_of exp.now) (inputs_at (values_of values.old) inputs)) }
    ensures place { IfOk result (λ at. at < length values.new) }
    ensures keeps { Keeps values.old values.new }
{
    match exp {
        Exp::Unit => values.add(Shape::Unit),
        Exp::N => place_of(values, inputs.north),
        Exp::W => place_of(values, inputs.west),
        Exp::Inl(inner) => {
            let at = value_of(values, inner, inputs)?;
            values.add(Shape::Inl(at))
        }
        Exp::Inr(inner) => {
            let at = value_of(values, inner, inputs)?;
            values.add(Shape::Inr(at))
        }
        Exp::Pair(left, right) => {
            let first = value_of(values, left, inputs)?;
            let second = value_of(values, right, inputs)?;
            values.add(Shape::Pair(first, second))
        }
    }
}

/// The place of an input. In a good program the input of an expression is wired.
fn place_of(values: &mut ValueStore, at: Option<usize>) -> Result<usize, Memory>
    requires { IsPlace (length values.old) at }
    ensures value { IfOk result (λ place. value_at values.new place
        ≡ unwrap_or (option_map (value_at values.old) at) unit) }
    ensures place { IfOk result (λ place. place < length values.new) }
    ensures keeps { Keeps values.old values.new }
{
    match at {
        Some(place) => Ok(place),
        None => values.add(Shape::Unit),
    }
}
