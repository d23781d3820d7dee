//! What is ready of one instance.

ghost use Rattle.std.specs.Prelude.{◌≡◌, ◌<◌, ◌^◌, ◌++◌, length};
ghost use Rattle.fire_core.specs.Events.{events_shown};
ghost use Rattle.fire_core.specs.inner.Ready.{AddsFire, AddsFires, AddsReady};
ghost use Rattle.fire_core.specs.inner.Rows.{row_of};

use crate::event::Event;
use crate::look::can_fire;
use crate::rows::Row;
use two_d::BoxRow;
use umix_base::Memory;

/// Adds the ready events of an instance to a list.
pub(crate) fn add_ready(
    row: &Row,
    boxes: &[BoxRow],
    number: usize,
    events: &mut Vec<Event>,
) -> Result<(), Memory>
    requires { length boxes.now < 2 ^ 32 }
    ensures added { AddsReady (row_of row.now) boxes.now number
        (events_shown events.old.items) (events_shown events.new.items) result }
{
    if row.outcome.is_some() {
        return Ok(());
    }
    let before = events.len();
    add_fires(row, boxes, number, events)?;
    if events.len() != before {
        return Ok(());
    }
    if row.inner != 0 {
        return Ok(());
    }
    events.push(Event::End(number as u64))?;
    Ok(())
}

/// Adds the firings of the boxes that can fire.
fn add_fires(
    row: &Row,
    boxes: &[BoxRow],
    number: usize,
    events: &mut Vec<Event>,
) -> Result<(), Memory>
    requires { length boxes.now < 2 ^ 32 }
    ensures added { AddsFires (row_of row.now) boxes.now number
        (events_shown events.old.items) (events_shown events.new.items) result }
{
    for bx in 0..boxes.len() {
        add_fire(row, &boxes[bx], number, bx as u32, events)?;
    }
    Ok(())
}

/// Adds the firing of a box, if it can fire.
fn add_fire(
    row: &Row,
    bx: &BoxRow,
    number: usize,
    place: u32,
    events: &mut Vec<Event>,
) -> Result<(), Memory>
    ensures added { AddsFire (row_of row.now) bx.now number place
        (events_shown events.old.items) (events_shown events.new.items) result }
{
    if can_fire(row, bx, place as usize) {
        events.push(Event::Fire(number as u64, place))?;
    }
    Ok(())
}
