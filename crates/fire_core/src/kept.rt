//! What is ready, kept from one event to the next as marks, of which an event changes a few.

ghost use Rattle.std.specs.Prelude.{◌≡◌, ◌<◌, ◌≤◌, ◌+◌, ◌^◌, ◌==◌, ◌&&◌, ◌⊎◌, ℕ, [], List, Some};
ghost use Rattle.std.specs.Prelude.{not, length, map, slice_get, IfOk, OnOk};
ghost use Rattle.codex_values.specs.Value.{Value};
ghost use Rattle.mark_list.specs.Marks.{at};
ghost use Rattle.ready_marks.specs.Slots.{IsRightAt, boxes_of, mark_at};
ghost use Rattle.ready_marks.specs.Ways.{ways_form};
ghost use Rattle.two_d.specs.Meaning as mean;
ghost use Rattle.two_d.specs.Programs.{Program, box_count};
ghost use Rattle.two_d.specs.Steps as steps;
ghost use Rattle.two_d.specs.Steps.{IsStateOf, Table, is_live};
ghost use Rattle.two_d.specs.Trails.{Trail};
ghost use Rattle.fire_core.specs.Events.{event_of};
ghost use Rattle.fire_core.specs.Kept.{AreAllWays, IsKeptOf, IsMost};
ghost use Rattle.fire_core.specs.inner.Changes.{AreBoxesRight, AreRightOf, AreSpread, HasRoom};
ghost use Rattle.fire_core.specs.inner.Changes.{IsDue, IsNear, IsUnsetPast, KeepsRight, StaysRight};
ghost use Rattle.fire_core.specs.inner.Changes.{maker_of, ways_in};
ghost use Rattle.fire_core.specs.inner.Changes as changes;
ghost use Rattle.fire_core.specs.inner.Rows.{instance_in, row_of};

use crate::event::Event;
use crate::instances::Instances;
use crate::look::is_box_ready;
use crate::rows::Row;
use ready_marks::{Slots, Ways, all_ways};
use std::alloc::Global;
use std::marker::Model;
use two_d::Program;
use umix_base::Memory;

/// The marks of what is ready, for each module where its wires lead, and how many boxes the largest has.
#[derive(Drop)]
pub(crate) struct Kept {
    slots: Slots,
    ways: Vec<Ways>,
    most: usize,
}

impl Model for Kept {
    ghost use Rattle.fire_core.specs.Kept.{KeptView, kept_view};

    ghost Value = { KeptView };

    ghost view = { λ kept. kept_view kept.slots kept.ways.items kept.most };
}

impl Kept {
    /// What is ready of the first instance, which is the only one.
    pub(crate) fn start(
        alloc: Global,
        program: &Program,
        instances: &Instances,
    ) -> Result<Kept, Memory>
        requires state { IsStateOf program.now instances.now.table }
        requires one { length instances.now.table ≡ 1 }
        ensures { IfOk result (IsKeptOf program.now instances.now.table) }
    {
        let modules = program.modules();
        let row = instances.row(0);
        let mut slots = Slots::new(alloc)?;
        slots.reserve(0, module_size(program, row.kind))?;
        let ways = all_ways(alloc, modules)?;
        add(&mut slots, program, instances, 0);
        let most = most_boxes(program);
        Ok(Kept { slots, ways, most })
    }

    /// How many events are ready.
    pub(crate) fn len(&self) -> usize
        ensures { (P : Program) (T : Table) → IsKeptOf P T self.now → result ≡ length (steps.ready P T) }
    {
        self.slots.len()
    }

    /// The ready event at a place of their list.
    pub(crate) fn event(&self, program: &Program, instances: &Instances, k: usize) -> Event
        requires state { IsStateOf program.now instances.now.table }
        requires kept { IsKeptOf program.now instances.now.table self.now }
        requires there { k < length (steps.ready program.now instances.now.table) }
        ensures { slice_get (steps.ready program.now instances.now.table) k ≡ Some (event_of result) }
    {
        let _modules = program.modules();
        match self.slots.event(instances.len(), k) {
            (number, Some(bx)) => Event::Fire(number as u64, bx as u32),
            (number, None) => Event::End(number as u64),
        }
    }

    /// Makes room for one more instance, whatever its module. What is ready stays.
    pub(crate) fn reserve(&mut self, instances: usize) -> Result<(), Memory>
        requires there { (P : Program) × (T : Table) × IsKeptOf P T self.old × (length T ≡ instances) }
        requires instances { instances < 2 ^ 63 }
        ensures kept { (P : Program) (T : Table) → length T ≡ instances → IsKeptOf P T self.old →
            IsKeptOf P T self.new }
        ensures ok { OnOk result (HasRoom instances self.new.most self.new.slots) }
    {
        self.slots.reserve(instances, self.most)
    }

    /// Looks again at all that an event has changed: there were so many instances, and a box may have come
    /// to something. There is room.
    pub(crate) fn renew(
        &mut self,
        program: &Program,
        instances: &Instances,
        event: Event,
        told: Option<(usize, usize)>,
        before: usize,
    )
        requires state { IsStateOf program.now instances.now.table }
        requires due { IsDue program.now instances.now.table self.old (event_of event) told before }
        ensures { IsKeptOf program.now instances.now.table self.new }
    {
        add_new(&mut self.slots, program, instances, before);
        renew_told(&mut self.slots, &self.ways, program, instances, told);
        renew_maker(&mut self.slots, program, instances, event);
    }
}

/// Looks at the instance that an event has started, if there are more than before.
fn add_new(slots: &mut Slots, program: &Program, instances: &Instances, before: usize)
    requires state { IsStateOf program.now instances.now.table }
    requires low { before ≤ length instances.now.table }
    requires high { length instances.now.table ≤ before + 1 }
    requires spread { AreSpread program.now instances.now.table before slots.old }
    requires room { before < length instances.now.table
        → HasRoom before (boxes_of program.now instances.now.table before) slots.old }
    ensures spread { AreSpread program.now instances.now.table (length instances.now.table) slots.new }
    ensures stays { StaysRight program.now instances.now.table before slots.old slots.new }
    ensures new { before < length instances.now.table → AreRightOf program.now instances.now.table slots.new before }
    ensures rest { IsUnsetPast before slots.old → IsUnsetPast (length instances.now.table) slots.new }
{
    if before < instances.len() {
        add(slots, program, instances, before);
    }
}

/// The last instance is new: looks at its boxes, and at its end. There is room.
fn add(slots: &mut Slots, program: &Program, instances: &Instances, number: usize)
    requires state { IsStateOf program.now instances.now.table }
    requires last { length instances.now.table ≡ number + 1 }
    requires spread { AreSpread program.now instances.now.table number slots.old }
    requires room { HasRoom number (boxes_of program.now instances.now.table number) slots.old }
    ensures spread { AreSpread program.now instances.now.table (length instances.now.table) slots.new }
    ensures stays { StaysRight program.now instances.now.table number slots.old slots.new }
    ensures new { AreRightOf program.now instances.now.table slots.new number }
    ensures rest { IsUnsetPast number slots.old → IsUnsetPast (length instances.now.table) slots.new }
{
    let _modules = program.modules();
    let row = instances.row(number);
    let boxes = module_size(program, row.kind);
    slots.begin(number, boxes);
    for bx in 0..boxes {
        renew_box(slots, program, instances, number, bx);
    }
    renew_end(slots, program, instances, number);
}

/// Looks at the box that has come to something, if one has, and at what that may change.
fn renew_told(
    slots: &mut Slots,
    ways: &[Ways],
    program: &Program,
    instances: &Instances,
    told: Option<(usize, usize)>,
)
    requires state { IsStateOf program.now instances.now.table }
    requires spread { AreSpread program.now instances.now.table (length instances.now.table) slots.old }
    requires ways { AreAllWays program.now (map ways_form ways.now) }
    requires there { (i b : ℕ) → told ≡ Some (i, b)
        → (i < length instances.now.table) × (b < boxes_of program.now instances.now.table i) }
    requires others { (i b : ℕ) → told ≡ Some (i, b) → (d : ℕ) → d < boxes_of program.now instances.now.table i
        → IsRightAt program.now instances.now.table slots.old i d
        ⊎ IsNear (ways_in (map ways_form ways.now) instances.now.table i) b d }
    ensures keeps { KeepsRight program.now instances.now.table slots.old slots.new }
    ensures all { (i b : ℕ) → told ≡ Some (i, b) → AreRightOf program.now instances.now.table slots.new i }
{
    if let Some((number, bx)) = told {
        renew_around(slots, ways, program, instances, number, bx);
    }
}

/// Looks at the end of the instance that has ended, if one has.
fn renew_maker(slots: &mut Slots, program: &Program, instances: &Instances, event: Event)
    requires state { IsStateOf program.now instances.now.table }
    requires spread { AreSpread program.now instances.now.table (length instances.now.table) slots.old }
    requires there { maker_of (event_of event) < length instances.now.table }
    requires boxes { (i : ℕ) → event_of event ≡ steps.End i →
        AreBoxesRight program.now instances.now.table slots.old i }
    ensures keeps { KeepsRight program.now instances.now.table slots.old slots.new }
    ensures end { (i : ℕ) → event_of event ≡ steps.End i
        → IsRightAt program.now instances.now.table slots.new i (boxes_of program.now instances.now.table i) }
{
    if let Event::End(number) = event {
        renew_end(slots, program, instances, number as usize);
    }
}

/// A box has come to something: looks at it, at the boxes to which its wires lead, and at the end.
fn renew_around(
    slots: &mut Slots,
    ways: &[Ways],
    program: &Program,
    instances: &Instances,
    number: usize,
    bx: usize,
)
    requires state { IsStateOf program.now instances.now.table }
    requires there { number < length instances.now.table }
    requires spread { AreSpread program.now instances.now.table (length instances.now.table) slots.old }
    requires ways { AreAllWays program.now (map ways_form ways.now) }
    requires box_there { bx < boxes_of program.now instances.now.table number }
    requires others { (d : ℕ) → d < boxes_of program.now instances.now.table number
        → IsRightAt program.now instances.now.table slots.old number d
        ⊎ IsNear (ways_in (map ways_form ways.now) instances.now.table number) bx d }
    ensures keeps { KeepsRight program.now instances.now.table slots.old slots.new }
    ensures all { AreRightOf program.now instances.now.table slots.new number }
{
    let _modules = program.modules();
    let row = instances.row(number);
    let way = &ways[row.kind];
    renew_box(slots, program, instances, number, bx);
    renew_led(slots, program, instances, number, way.south[bx]);
    renew_led(slots, program, instances, number, way.east[bx]);
    renew_end(slots, program, instances, number);
}

/// Looks at the box to which a wire leads, if one does.
fn renew_led(
    slots: &mut Slots,
    program: &Program,
    instances: &Instances,
    number: usize,
    led: Option<usize>,
)
    requires state { IsStateOf program.now instances.now.table }
    requires there { number < length instances.now.table }
    requires spread { AreSpread program.now instances.now.table (length instances.now.table) slots.old }
    requires box_there { (b : ℕ) → led ≡ Some b → b < boxes_of program.now instances.now.table number }
    ensures keeps { KeepsRight program.now instances.now.table slots.old slots.new }
    ensures here { (b : ℕ) → led ≡ Some b → IsRightAt program.now instances.now.table slots.new number b }
{
    if let Some(place) = led {
        renew_box(slots, program, instances, number, place);
    }
}

/// Looks whether a box can fire.
fn renew_box(slots: &mut Slots, program: &Program, instances: &Instances, number: usize, bx: usize)
    requires state { IsStateOf program.now instances.now.table }
    requires there { number < length instances.now.table }
    requires spread { AreSpread program.now instances.now.table (length instances.now.table) slots.old }
    requires box_there { bx < boxes_of program.now instances.now.table number }
    ensures keeps { KeepsRight program.now instances.now.table slots.old slots.new }
    ensures here { IsRightAt program.now instances.now.table slots.new number bx }
{
    let modules = program.modules();
    let row = instances.row(number);
    let module = &modules[row.kind];
    let form = &module.boxes[bx];
    let ready = is_box_ready(row, form, bx);
    slots.put(number, bx, ready);
}

/// Looks whether an instance can end. The marks of its boxes are right.
fn renew_end(slots: &mut Slots, program: &Program, instances: &Instances, number: usize)
    requires state { IsStateOf program.now instances.now.table }
    requires there { number < length instances.now.table }
    requires spread { AreSpread program.now instances.now.table (length instances.now.table) slots.old }
    requires boxes { AreBoxesRight program.now instances.now.table slots.old number }
    ensures keeps { KeepsRight program.now instances.now.table slots.old slots.new }
    ensures here { IsRightAt program.now instances.now.table slots.new number
        (boxes_of program.now instances.now.table number) }
{
    let _modules = program.modules();
    let row = instances.row(number);
    let boxes = module_size(program, row.kind);
    let ready = can_end(slots, row, number, boxes);
    slots.put(number, boxes, ready);
}

/// An instance hasn't ended, no inner instance is left, and none of its boxes is marked.
fn can_end(slots: &Slots, row: &Row, number: usize, boxes: usize) -> bool
    requires there { number < length slots.now.starts }
    requires within { at slots.now.starts number + boxes ≤ length slots.now.marks }
    ensures { (values : List Value) (trails : List Trail) →
        result ≡ (is_live (instance_in values trails (row_of row.now))
        && (mean.all_below boxes (λ b. not (mark_at slots.now number b)) && (row.now.inner == 0))) }
{
    row.outcome.is_none() && row.inner == 0 && slots.is_quiet(number, boxes)
}

/// The box that comes to something by an event, if one does.
pub(crate) fn told_by(instances: &Instances, event: Event) -> Option<(usize, usize)>
    requires { maker_of (event_of event) < length instances.now.table }
    ensures { result ≡ changes.told_by instances.now.table (event_of event) }
{
    match event {
        Event::Fire(number, bx) => Some((number as usize, bx as usize)),
        Event::End(number) => instances.row(number as usize).parent,
    }
}

/// How many boxes a module has.
fn module_size(program: &Program, kind: usize) -> usize
    requires { kind < length program.now }
    ensures boxes { result ≡ box_count program.now kind }
    ensures small { result < 2 ^ 32 }
{
    program.modules()[kind].boxes.len()
}

/// How many boxes the largest module has.
fn most_boxes(program: &Program) -> usize
    ensures { IsMost program.now result }
{
    let modules = program.modules();
    let mut most = 0;
    for kind in 0..modules.len() {
        let size = module_size(program, kind);
        most = larger(most, size);
    }
    most
}

/// The larger of two numbers.
fn larger(a: usize, b: usize) -> usize
    ensures first { a ≤ result }
    ensures second { b ≤ result }
    ensures few { (n : ℕ) → a < n → b < n → result < n }
{
    if a < b { b } else { a }
}
