ghost use Rattle.std.specs.Prelude.{◌≡◌, ◌<◌, ◌≤◌, length, map, IfOk};
ghost use Rattle.two_d.specs.Programs.{module_of};
ghost use Rattle.two_d.specs.Sound.{IsSound, IsOrder};
ghost use Rattle.two_d.specs.Weights.{weight};
ghost use Rattle.lower_plan.specs.Plans.{slot_at, AreSteps, IsPlan, ArePlans};
ghost use Rattle.lower_plan.specs.inner.Numbers.{HasSlots};

use crate::slots::{Slots, slots_of};
use crate::{Plan, PlanStep};
use std::alloc::Global;
use two_d::{Module, Origin, Program};
use umix_base::Memory;

/// The steps of a module's boxes, in this order.
fn steps_of(
    alloc: Global,
    owner: &Module,
    order: &Vec<usize>,
    slots: &Slots,
) -> Result<Vec<PlanStep>, Memory>
    requires sound { IsSound (module_of owner.now) }
    requires order { IsOrder (module_of owner.now) order.now.items }
    requires slots { HasSlots (module_of owner.now) slots.now }
    ensures { IfOk result (λ steps. AreSteps (module_of owner.now) order.now.items steps.items) }
{
    let mut steps = Vec::new(alloc);
    for bx in order {
        let row = &owner.boxes[*bx];
        steps.push(PlanStep {
            bx: *bx,
            n: slots.end(row.n),
            w: slots.end(row.w),
            s: slots.at(Origin::South(*bx)),
            e: slots.at(Origin::East(*bx)),
        })?;
    }
    Ok(steps)
}

/// The slots of the wires to a module's exits.
fn exits_of(alloc: Global, owner: &Module, slots: &Slots) -> Result<Vec<Option<u32>>, Memory>
    requires sound { IsSound (module_of owner.now) }
    requires slots { HasSlots (module_of owner.now) slots.now }
    ensures { IfOk result (λ exits.
        exits.items ≡ map (slot_at (module_of owner.now)) (module_of owner.now).exits) }
{
    let mut exits = Vec::new(alloc);
    for exit in &owner.exits {
        exits.push(slots.end(*exit))?;
    }
    Ok(exits)
}

/// The plan of a module.
fn plan_of(alloc: Global, program: &Program, number: usize) -> Result<Plan, Memory>
    requires there { number < length program.now }
    requires few { weight program.now ≤ 262144 }
    ensures number { IfOk result (λ plan. plan.«module» ≡ number) }
    ensures plan { IfOk result (λ plan. IsPlan program.now plan) }
{
    let owner = &program.modules()[number];
    let slots = slots_of(alloc, owner)?;
    let steps = steps_of(alloc, owner, program.order(number), &slots)?;
    let exits = exits_of(alloc, owner, &slots)?;
    Ok(Plan {
        module: number,
        slots: slots.count,
        steps,
        exits,
        north: slots.at(Origin::North),
        west: slots.at(Origin::West),
    })
}

/// The plans of a program's modules, in the order of the modules, for a program whose weight is at
/// most 262,144. Its only error is want of memory. Linear in the weight. See "A block" in
/// docs/COMPILED.md.
pub fn plans(alloc: Global, program: &Program) -> Result<Vec<Plan>, Memory>
    requires { weight program.now ≤ 262144 }
    ensures { IfOk result (λ plans. ArePlans program.now plans.items) }
{
    let mut plans = Vec::new(alloc);
    for number in 0..program.modules().len() {
        plans.push(plan_of(alloc, program, number)?)?;
    }
    Ok(plans)
}
