ghost use Rattle.std.specs.Prelude.{◌≡◌, ◌<◌, ◌^◌, [], ◌∷◌, length, true, Some, IfOk, IfSome, OnOk, OnErr, slice_get};
ghost use Rattle.std.specs.Option.{option_map};
ghost use Rattle.codex_values.specs.Store.{Keeps, values_of};
ghost use Rattle.two_d.specs.Steps as steps;
ghost use Rattle.two_d.specs.Steps.{instance_at, is_ready};
ghost use Rattle.two_d.specs.Texts.{IsPlaceIn, outcome_in};
ghost use Rattle.two_d.specs.Trails.{KeepsTrails, trails_of};
ghost use Rattle.fire_core.specs.Cores.{IsCoreOf};
ghost use Rattle.fire_core.specs.Events.{event_of, events_shown};

use crate::event::Event;
use crate::instances::Instances;
use crate::kept::{Kept, told_by};
use crate::ready::add_ready;
use codex_values::ValueStore;
use std::alloc::Global;
use std::marker::Model;
use two_d::{Outcome, Program, TrailStore};
use umix_base::Memory;

/// An evaluation at some moment: an instance table, the stores of values and trails, and marks of what is
/// ready, which are kept from event to event. See "Order of events" in docs/GRID.md.
#[derive(Drop)]
pub struct Core {
    instances: Instances,
    kept: Kept,
}

impl Model for Core {
    ghost use Rattle.std.specs.Prelude.{◌<◌, length};
    ghost use Rattle.std.specs.Coded.{codes};
    ghost use Rattle.codex_values.specs.inner.Codes.{coded_value};
    ghost use Rattle.fire_core.specs.Cores.{CoreView};
    ghost use Rattle.fire_core.specs.inner.Instances.{core_view};

    ghost Value = { CoreView };

    ghost coded = { Prim.hlevel (codes, coded_value) };

    ghost view = { λ core. core_view core.instances core.kept };

    ghost invariant = { λ core. 0 < length core.instances.table };
}

impl Core {
    /// One instance of `main`, nothing fired. The stores are empty.
    pub fn start(alloc: Global, program: &Program) -> Result<Core, Memory>
        ensures core { IfOk result (IsCoreOf program.now) }
        ensures table { IfOk result (λ core. core.table ≡ steps.start program.now) }
        ensures stores { IfOk result (λ core. (core.nodes ≡ []) × (core.trails ≡ [])) }
    {
        let _modules = program.modules();
        let instances = Instances::start(alloc, program)?;
        let kept = Kept::start(alloc, program, &instances)?;
        Ok(Core { instances, kept })
    }

    /// The ready events, by instance, boxes by number, then its end. They are looked for in all instances.
    pub fn ready(&self, alloc: Global, program: &Program) -> Result<Vec<Event>, Memory>
        requires { IsCoreOf program.now self.now }
        ensures ready { IfOk result (λ events. events_shown events.items ≡ steps.ready program.now self.now.table) }
    {
        let modules = program.modules();
        let mut events = Vec::new(alloc);
        for number in 0..self.instances.len() {
            let row = self.instances.row(number);
            let module = &modules[row.kind];
            add_ready(row, &module.boxes, number, &mut events)?;
        }
        Ok(events)
    }

    /// How many events are ready. Constant time, and it takes no memory.
    pub fn ready_len(&self, program: &Program) -> usize
        requires { IsCoreOf program.now self.now }
        ensures { result ≡ length (steps.ready program.now self.now.table) }
    {
        let _modules = program.modules();
        self.kept.len()
    }

    /// The ready event at a place of their list. Time by the logarithm of the number of instances and one
    /// 1,048,576th of the boxes of all that were started, and it takes no memory.
    pub fn ready_at(&self, program: &Program, k: usize) -> Event
        requires core { IsCoreOf program.now self.now }
        requires there { k < length (steps.ready program.now self.now.table) }
        ensures { slice_get (steps.ready program.now self.now.table) k ≡ Some (event_of result) }
    {
        let _modules = program.modules();
        self.kept.event(program, &self.instances, k)
    }

    /// Makes a ready event. After `Memory` the table is as before. What stood in the stores always still stands
    /// at its place; they may have grown. Beside what the box does, an event looks at three boxes and an end;
    /// one that starts an instance looks at each of its boxes.
    pub fn step(&mut self, program: &Program, event: Event) -> Result<(), Memory>
        requires core { IsCoreOf program.now self.old }
        requires ready { is_ready program.now self.old.table (event_of event) ≡ true }
        requires few { length self.old.table < 2 ^ 63 }
        ensures ok { OnOk result (self.new.table ≡ steps.step program.now self.old.table (event_of event)) }
        ensures err { OnErr result (self.new.table ≡ self.old.table) }
        ensures core { IsCoreOf program.now self.new }
        ensures values { Keeps self.old.nodes self.new.nodes }
        ensures trails { KeepsTrails self.old.trails self.new.trails }
    {
        let _modules = program.modules();
        let before = self.instances.len();
        let told = told_by(&self.instances, event);
        self.kept.reserve(before)?;
        self.instances.step(program, event)?;
        self.kept
            .renew(program, &self.instances, event, told, before);
        Ok(())
    }

    /// What instance 0 has come to, if it has ended. Its place is in its store, as `text` asks. Takes no memory.
    pub fn outcome(&self) -> Option<Outcome>
        ensures outcome { option_map (outcome_in (values_of self.now.nodes)
            (trails_of self.now.trails)) result ≡ (instance_at self.now.table 0).outcome }
        ensures places { IfSome result (IsPlaceIn (length self.now.nodes) (length self.now.trails)) }
    {
        self.instances.row(0).outcome
    }

    /// How many instances were started. Takes no memory.
    pub fn instances(&self) -> u64
        ensures { result ≡ length self.now.table }
    {
        self.instances.len() as u64
    }

    /// The store of values. Takes no memory.
    pub fn values(&self) -> &ValueStore
        ensures { result.now ≡ self.now.nodes }
    {
        self.instances.values()
    }

    /// The store of trails. Takes no memory.
    pub fn trails(&self) -> &TrailStore
        ensures { result.now ≡ self.now.trails }
    {
        self.instances.trails()
    }

    /// The two stores. Takes no memory.
    pub fn into_stores(self) -> (ValueStore, TrailStore)
        ensures values { result.0 ≡ self.nodes }
        ensures trails { result.1 ≡ self.trails }
    {
        self.instances.into_stores()
    }
}
