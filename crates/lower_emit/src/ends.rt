ghost use Rattle.std.specs.Prelude.{◌≡◌, ◌<◌, ◌^◌, IfSome, OnOk};
ghost use Rattle.lower_emit.specs.inner.Codes.{AddsOps, layout_in, HasPlaces, AreWithin};
ghost use Rattle.lower_emit.specs.Blocks.{read_exit, read_exits, no_result_code, two_results_code};
ghost use Rattle.lower_emit.specs.Blocks.{marks_code, end_code};

use crate::code::{Code, ZERO};
use crate::places::Places;
use umix_base::Memory;

/// The slots of an outcome: its value, and where it is stuck.
const VALUE: u32 = 5;

const STUCK: u32 = 6;

/// Adds the end of a block: the exits are read, then the stuck marks, and the outcome goes to its
/// slots.
pub(crate) fn end(
    code: &mut Code,
    places: &Places,
    wires: &Vec<Option<u32>>,
    none: u32,
    two: u32,
) -> Result<(), Memory>
    requires places { HasPlaces places.now }
    requires wires { AreWithin places.now.wires wires.now.items }
    requires none { none < 2 ^ 25 }
    requires two { two < 2 ^ 25 }
    ensures { OnOk result (AddsOps code.old code.new
        (end_code (layout_in places.now) wires.now.items none two places.now.boxes)) }
{
    let last = places.temporary(0);
    let before = places.temporary(1);
    code.set_slot(0, last)?;
    code.set_slot(0, before)?;
    exits(code, places, wires)?;
    no_result(code, places, none)?;
    two_results(code, places, two)?;
    marks(code, places)?;
    code.choose_slot(STUCK, ZERO, last, VALUE)
}

/// Adds what reads the exits.
fn exits(code: &mut Code, places: &Places, wires: &Vec<Option<u32>>) -> Result<(), Memory>
    requires places { HasPlaces places.now }
    requires wires { AreWithin places.now.wires wires.now.items }
    ensures { OnOk result (AddsOps code.old code.new
        (read_exits (layout_in places.now) wires.now.items)) }
{
    for wire in wires {
        exit(code, places, *wire)?;
    }
    Ok(())
}

/// Adds what reads an exit: the value seen last, and the one before it.
fn exit(code: &mut Code, places: &Places, wire: Option<u32>) -> Result<(), Memory>
    requires places { HasPlaces places.now }
    requires wire { IfSome wire (λ k. k < places.now.wires) }
    ensures { OnOk result (AddsOps code.old code.new (read_exit (layout_in places.now) wire)) }
{
    let slot = places.input(wire);
    let last = places.temporary(0);
    let before = places.temporary(1);
    code.choose_slot(slot, last, before, before)?;
    code.choose_slot(slot, slot, last, last)
}

/// Adds what makes the outcome stuck where no exit carries a value.
fn no_result(code: &mut Code, places: &Places, text: u32) -> Result<(), Memory>
    requires places { HasPlaces places.now }
    requires text { text < 2 ^ 25 }
    ensures { OnOk result (AddsOps code.old code.new (no_result_code (layout_in places.now) text)) }
{
    let seen = places.temporary(0);
    let trail = places.temporary(3);
    code.trail(text, ZERO, trail)?;
    code.choose_slot(seen, ZERO, trail, STUCK)
}

/// Adds what makes the outcome stuck where two exits carry values.
fn two_results(code: &mut Code, places: &Places, text: u32) -> Result<(), Memory>
    requires places { HasPlaces places.now }
    requires text { text < 2 ^ 25 }
    ensures { OnOk result (AddsOps code.old code.new (two_results_code (layout_in places.now) text)) }
{
    let seen = places.temporary(1);
    let trail = places.temporary(3);
    code.trail(text, ZERO, trail)?;
    code.choose_slot(seen, trail, STUCK, STUCK)
}

/// Adds what makes the outcome stuck where a box is, from the last box to the first.
fn marks(code: &mut Code, places: &Places) -> Result<(), Memory>
    requires places { HasPlaces places.now }
    ensures { OnOk result (AddsOps code.old code.new
        (marks_code (layout_in places.now) places.now.boxes)) }
{
    for done in 0..places.boxes {
        let slot = places.stuck(places.boxes - 1 - done);
        code.choose_slot(slot, slot, STUCK, STUCK)?;
    }
    Ok(())
}
