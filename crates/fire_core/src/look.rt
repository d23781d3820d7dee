//! What is on the wires of an instance.

ghost use Rattle.std.specs.Prelude.{◌≡◌, ◌&&◌, ℕ, List, Some, is_some};
ghost use Rattle.std.specs.Option.{option_map};
ghost use Rattle.codex_values.specs.Value.{Value};
ghost use Rattle.codex_values.specs.Store.{value_in};
ghost use Rattle.two_d.specs.Programs.{Program, box_of, box_at};
ghost use Rattle.two_d.specs.Meaning as mean;
ghost use Rattle.two_d.specs.Steps as steps;
ghost use Rattle.two_d.specs.Trails.{Trail};
ghost use Rattle.fire_core.specs.inner.Look.{input_at, inputs_at, may_fire, InputFits, InputsFit};
ghost use Rattle.fire_core.specs.inner.Rows.{row_of, instance_in, IsPlace, RowFits};

use crate::rows::Row;
use two_d::{BoxRow, Origin};

/// The places of the values at the inputs of a box.
#[derive(Clone, Copy)]
pub(crate) struct Inputs {
    pub(crate) north: Option<usize>,
    pub(crate) west: Option<usize>,
}

/// The place of the value on a wire.
pub(crate) fn look(row: &Row, origin: Origin) -> Option<usize>
    ensures value { (values : List Value) (trails : List Trail)
        → option_map (value_in values) result ≡ steps.wires (instance_in values trails (row_of row.now)) origin }
    ensures place { (n t : ℕ) → RowFits n t (row_of row.now) → IsPlace n result }
{
    match origin {
        Origin::North => row.north,
        Origin::West => row.west,
        Origin::South(bx) => match row.cells.get(bx) {
            Some(Some(cell)) => cell.south,
            _ => None,
        },
        Origin::East(bx) => match row.cells.get(bx) {
            Some(Some(cell)) => cell.east,
            _ => None,
        },
    }
}

/// What comes to one input: nothing where it is wired and its wire carries nothing.
fn input(row: &Row, wired: Option<Origin>) -> Option<Option<usize>>
    ensures value { (values : List Value) (trails : List Trail)
        → option_map (option_map (value_in values)) result
        ≡ input_at (steps.wires (instance_in values trails (row_of row.now))) wired }
    ensures place { (n t : ℕ) → RowFits n t (row_of row.now) → InputFits n result }
{
    match wired {
        None => Some(None),
        Some(origin) => match look(row, origin) {
            None => None,
            Some(at) => Some(Some(at)),
        },
    }
}

/// The inputs of a box, if it is enabled.
pub(crate) fn inputs_of(row: &Row, bx: &BoxRow) -> Option<Inputs>
    ensures value { (values : List Value) (trails : List Trail)
        → option_map (inputs_at values) result
        ≡ mean.inputs_of (steps.wires (instance_in values trails (row_of row.now)))
        (box_of bx.now) }
    ensures places { (n t : ℕ) → RowFits n t (row_of row.now) → InputsFit n result }
{
    match input(row, bx.n) {
        None => None,
        Some(north) => match input(row, bx.w) {
            None => None,
            Some(west) => Some(Inputs { north, west }),
        },
    }
}

/// The box of this number has fired.
pub(crate) fn has_fired(row: &Row, number: usize) -> bool
    ensures { (values : List Value) (trails : List Trail) →
        result ≡ is_some (steps.fired (instance_in values trails (row_of row.now)) number) }
{
    match row.cells.get(number) {
        Some(Some(_)) => true,
        _ => false,
    }
}

/// The box, number `number` of its module, hasn't fired and is enabled.
pub(crate) fn can_fire(row: &Row, bx: &BoxRow, number: usize) -> bool
    ensures { (P : Program) (values : List Value) (trails : List Trail) →
        box_at P row.now.kind number ≡ Some (box_of bx.now)
        → result ≡ steps.can_fire P (instance_in values trails (row_of row.now)) number }
{
    !has_fired(row, number) && inputs_of(row, bx).is_some()
}

/// It can, and the instance hasn't ended.
pub(crate) fn is_box_ready(row: &Row, bx: &BoxRow, number: usize) -> bool
    ensures { (P : Program) (values : List Value) (trails : List Trail) →
        box_at P row.now.kind number ≡ Some (box_of bx.now)
        → result ≡ may_fire P (instance_in values trails (row_of row.now)) number }
{
    row.outcome.is_none() && can_fire(row, bx, number)
}
