//! Instances with the stores of what their wires carry and of where they are stuck.

ghost use Rattle.std.specs.Prelude.{◌≡◌, ◌<◌, ◌+◌, ◌^◌, [], ◌∷◌, ◌++◌, length, true, None, Some};
ghost use Rattle.std.specs.Prelude.{IfOk, OnOk, OnErr, slice_set};
ghost use Rattle.codex_values.specs.Store.{values_of};
ghost use Rattle.two_d.specs.Meaning as mean;
ghost use Rattle.two_d.specs.Steps as steps;
ghost use Rattle.two_d.specs.Steps.{IsStateOf, instance_at, is_live, is_ready};
ghost use Rattle.two_d.specs.Texts.{outcome_in};
ghost use Rattle.two_d.specs.Trails.{trails_of};
ghost use Rattle.fire_core.specs.inner.Acts.{effect_in, EffectFits};
ghost use Rattle.fire_core.specs.inner.Instances.{inner_count, delivered, KeepsStores};
ghost use Rattle.fire_core.specs.inner.Look.{inputs_at, InputsFit};
ghost use Rattle.fire_core.specs.Events.{event_of};
ghost use Rattle.fire_core.specs.inner.Rows.{CellFits, OutcomeFits, RowFits, cell_in, instance_in, row_of};

use crate::act::{Effect, Spot, act};
use crate::event::Event;
use crate::look::{Inputs, inputs_of};
use crate::outcomes::{outcome_of, returned};
use crate::rows::{Cell, Row, Rows};
use codex_values::ValueStore;
use std::alloc::Global;
use std::marker::Model;
use two_d::{Outcome, Program, TrailStore};
use umix_base::Memory;

/// The instances, and the stores of their values and trails.
#[derive(Drop)]
pub(crate) struct Instances {
    rows: Rows,
    values: ValueStore,
    trails: TrailStore,
}

impl Model for Instances {
    ghost use Rattle.std.specs.Coded.{codes};
    ghost use Rattle.codex_values.specs.inner.Codes.{coded_value};
    ghost use Rattle.fire_core.specs.inner.Instances.{InstancesView, instances_view, AreKept};

    ghost Value = { InstancesView };

    ghost coded = { Prim.hlevel (codes, coded_value) };

    ghost view = { λ instances. instances_view instances.values instances.trails instances.rows };

    ghost invariant = { λ instances. AreKept instances.values instances.trails instances.rows };
}

impl Instances {
    /// One instance of `main`, nothing fired.
    pub(crate) fn start(alloc: Global, program: &Program) -> Result<Instances, Memory>
        ensures table { IfOk result (λ instances. instances.table ≡ steps.start program.now) }
        ensures stores { IfOk result (λ instances. (instances.nodes ≡ []) × (instances.trails ≡ [])) }
    {
        let boxes = program.modules()[program.main()].boxes.len();
        let cells = vec![in alloc; None; boxes]?;
        let mut rows = Rows::new(alloc);
        rows.push(Row {
            kind: program.main(),
            parent: None,
            north: None,
            west: None,
            cells,
            inner: 0,
            outcome: None,
        })?;
        Ok(Instances {
            rows,
            values: ValueStore::new(alloc),
            trails: TrailStore::new(alloc),
        })
    }

    /// The table after a ready event. After `Memory` it is as before, and the stores may have grown.
    pub(crate) fn step(&mut self, program: &Program, event: Event) -> Result<(), Memory>
        requires state { IsStateOf program.now self.old.table }
        requires ready { is_ready program.now self.old.table (event_of event) ≡ true }
        requires few { length self.old.table < 2 ^ 63 }
        ensures ok { OnOk result (self.new.table ≡ steps.step program.now self.old.table (event_of event)) }
        ensures err { OnErr result (self.new.table ≡ self.old.table) }
        ensures keeps { KeepsStores self.old self.new }
    {
        match event {
            Event::Fire(number, bx) => self.fire(program, number as usize, bx as usize),
            Event::End(number) => self.end(program, number as usize),
        }
    }

    pub(crate) fn len(&self) -> usize
        ensures { result ≡ length self.now.table }
    {
        self.rows.len()
    }

    pub(crate) fn row(&self, number: usize) -> &Row
        requires { number < length self.now.table }
        ensures row { instance_in (values_of self.now.nodes) (trails_of self.now.trails)
            (row_of result.now) ≡ instance_at self.now.table number }
        ensures inner { result.now.inner ≡ inner_count number self.now.table }
        ensures fits { RowFits (length self.now.nodes) (length self.now.trails) (row_of result.now) }
    {
        self.rows.row(number)
    }

    pub(crate) fn values(&self) -> &ValueStore
        ensures { result.now ≡ self.now.nodes }
    {
        &self.values
    }

    pub(crate) fn trails(&self) -> &TrailStore
        ensures { result.now ≡ self.now.trails }
    {
        &self.trails
    }

    pub(crate) fn into_stores(self) -> (ValueStore, TrailStore)
        ensures values { result.0 ≡ self.nodes }
        ensures trails { result.1 ≡ self.trails }
    {
        (self.values, self.trails)
    }

    /// What a ready box does. Only the stores grow.
    fn effect(&mut self, program: &Program, number: usize, bx: usize) -> Result<Effect, Memory>
        requires state { IsStateOf program.now self.old.table }
        requires ready { is_ready program.now self.old.table (steps.Fire number bx) ≡ true }
        ensures effect { IfOk result (λ effect.
            Some (effect_in (values_of self.new.nodes) (trails_of self.new.trails) effect)
            ≡ steps.firing program.now (instance_at self.old.table number) bx) }
        ensures fits { IfOk result (λ effect. EffectFits (length self.new.nodes) (length self.new.trails) effect) }
        ensures table { self.new.table ≡ self.old.table }
        ensures keeps { KeepsStores self.old self.new }
    {
        let modules = program.modules();
        let row = self.rows.row(number);
        let kind = row.kind;
        let module = &modules[kind];
        let form = &module.boxes[bx];
        match inputs_of(row, form) {
            None => unreachable!(),
            Some(inputs) => {
                let spot = Spot { kind, bx };
                act(
                    program,
                    &mut self.values,
                    &mut self.trails,
                    spot,
                    &form.command,
                    inputs,
                )
            }
        }
    }

    /// Box `bx` of an instance starts an instance.
    fn begin(
        &mut self,
        program: &Program,
        number: usize,
        bx: usize,
        kind: usize,
        inputs: Inputs,
    ) -> Result<(), Memory>
        requires there { number < length self.old.table }
        requires has { bx < length (instance_at self.old.table number).cells }
        requires kind { kind < length program.now }
        requires fits { InputsFit (length self.old.nodes) (Some inputs) }
        requires few { length self.old.table < 2 ^ 63 }
        requires childless { inner_count (length self.old.table) self.old.table ≡ 0 }
        ensures ok { OnOk result (self.new.table ≡ steps.set_cell self.old.table number bx mean.quiet
            ++ steps.begun program.now kind (Some (number, bx)) (inputs_at (values_of self.old.nodes) inputs) ∷ []) }
        ensures err { OnErr result (self.new.table ≡ self.old.table) }
        ensures keeps { KeepsStores self.old self.new }
    {
        let alloc = self.rows.allocator();
        let boxes = program.modules()[kind].boxes.len();
        let cells = vec![in alloc; None; boxes]?;
        let inner = self.rows.row(number).inner + 1;
        self.rows.push(Row {
            kind,
            parent: Some((number, bx)),
            north: inputs.north,
            west: inputs.west,
            cells,
            inner: 0,
            outcome: None,
        })?;
        self.rows.mark(
            number,
            bx,
            Cell {
                south: None,
                east: None,
                stuck: None,
            },
        );
        self.rows.count(number, inner);
        Ok(())
    }

    /// The outcome of an instance that is ready to end. Only the stores grow.
    fn outcome(&mut self, program: &Program, number: usize) -> Result<Outcome, Memory>
        requires state { IsStateOf program.now self.old.table }
        requires ready { is_ready program.now self.old.table (steps.End number) ≡ true }
        ensures outcome { IfOk result (λ outcome.
            outcome_in (values_of self.new.nodes) (trails_of self.new.trails) outcome
            ≡ steps.end_of program.now (instance_at self.old.table number)) }
        ensures fits { IfOk result (λ outcome.
            OutcomeFits (length self.new.nodes) (length self.new.trails) (Some outcome)) }
        ensures table { self.new.table ≡ self.old.table }
        ensures keeps { KeepsStores self.old self.new }
    {
        let modules = program.modules();
        let row = self.rows.row(number);
        let module = &modules[row.kind];
        outcome_of(row, module, &mut self.trails)
    }

    /// An instance that no box started has ended.
    fn finish(&mut self, number: usize, outcome: Outcome)
        requires there { number < length self.old.table }
        requires fits { OutcomeFits (length self.old.nodes) (length self.old.trails) (Some outcome) }
        requires orphan { (instance_at self.old.table number).parent ≡ None }
        ensures table { self.new.table ≡ slice_set self.old.table number
            (steps.ended (instance_at self.old.table number)
            (outcome_in (values_of self.old.nodes) (trails_of self.old.trails) outcome)) }
        ensures stores { (self.new.nodes ≡ self.old.nodes) × (self.new.trails ≡ self.old.trails) }
    {
        self.rows.close(number, outcome);
    }

    /// An instance has ended, and the box that started it comes to what it gave.
    fn deliver(
        &mut self,
        number: usize,
        above: usize,
        bx: usize,
        outcome: Outcome,
    ) -> Result<(), Memory>
        requires there { number < length self.old.table }
        requires live { is_live (instance_at self.old.table number) ≡ true }
        requires fits { OutcomeFits (length self.old.nodes) (length self.old.trails) (Some outcome) }
        requires parent { (instance_at self.old.table number).parent ≡ Some (above, bx) }
        requires earlier { above < number }
        requires has { bx < length (instance_at self.old.table above).cells }
        ensures ok { OnOk result (self.new.table ≡ delivered self.old.table number above bx
            (outcome_in (values_of self.old.nodes) (trails_of self.old.trails) outcome)) }
        ensures err { OnErr result (self.new.table ≡ self.old.table) }
        ensures keeps { KeepsStores self.old self.new }
    {
        let row = self.rows.row(above);
        let inner = row.inner - 1;
        let spot = Spot { kind: row.kind, bx };
        let cell = returned(&mut self.trails, spot, outcome)?;
        self.rows.close(number, outcome);
        self.rows.mark(above, bx, cell);
        self.rows.count(above, inner);
        Ok(())
    }

    /// Which box started an instance.
    fn parent(&self, number: usize) -> Option<(usize, usize)>
        requires { number < length self.now.table }
        ensures { result ≡ (instance_at self.now.table number).parent }
    {
        self.rows.row(number).parent
    }

    /// Box `bx` of an instance has come to something.
    fn mark(&mut self, number: usize, bx: usize, cell: Cell)
        requires there { number < length self.old.table }
        requires has { bx < length (instance_at self.old.table number).cells }
        requires fits { CellFits (length self.old.nodes) (length self.old.trails) (Some cell) }
        ensures table { self.new.table ≡ steps.set_cell self.old.table number bx
            (cell_in (values_of self.old.nodes) (trails_of self.old.trails) cell) }
        ensures stores { (self.new.nodes ≡ self.old.nodes) × (self.new.trails ≡ self.old.trails) }
    {
        self.rows.mark(number, bx, cell);
    }

    /// A ready box has fired.
    fn fire(&mut self, program: &Program, number: usize, bx: usize) -> Result<(), Memory>
        requires state { IsStateOf program.now self.old.table }
        requires ready { is_ready program.now self.old.table (steps.Fire number bx) ≡ true }
        requires few { length self.old.table < 2 ^ 63 }
        ensures ok { OnOk result (self.new.table ≡ steps.step program.now self.old.table (steps.Fire number bx)) }
        ensures err { OnErr result (self.new.table ≡ self.old.table) }
        ensures keeps { KeepsStores self.old self.new }
    {
        let _modules = program.modules();
        match self.effect(program, number, bx)? {
            Effect::Done(cell) => {
                self.mark(number, bx, cell);
                Ok(())
            }
            Effect::Starts(kind, inputs) => self.begin(program, number, bx, kind, inputs),
        }
    }

    /// An instance that is ready to end has ended.
    fn end(&mut self, program: &Program, number: usize) -> Result<(), Memory>
        requires state { IsStateOf program.now self.old.table }
        requires ready { is_ready program.now self.old.table (steps.End number) ≡ true }
        ensures ok { OnOk result (self.new.table ≡ steps.step program.now self.old.table (steps.End number)) }
        ensures err { OnErr result (self.new.table ≡ self.old.table) }
        ensures keeps { KeepsStores self.old self.new }
    {
        let _modules = program.modules();
        let outcome = self.outcome(program, number)?;
        match self.parent(number) {
            None => {
                self.finish(number, outcome);
                Ok(())
            }
            Some((above, bx)) => self.deliver(number, above, bx, outcome),
        }
    }
}
