ghost use Rattle.std.specs.Prelude.{◌≡◌, ◌+◌, ◌*◌, ◌<◌, ◌≤◌, IfOk, OnOk, length};
ghost use Rattle.lower_plan.specs.Plans.{IsStep};
ghost use Rattle.two_d.specs.Programs.{module_at};
ghost use Rattle.lower_emit.specs.Boxes.{box_code, box_length, boxes_code, boxes_length};
ghost use Rattle.lower_emit.specs.Boxes.{guards_code};
ghost use Rattle.lower_emit.specs.inner.Codes.{AddsOps, HaveSlots, HasStep, IsOwner, Says};
ghost use Rattle.lower_emit.specs.inner.Codes.{body_code, boxes_owned, layout_in, most_block_words};
ghost use Rattle.lower_emit.specs.Plans.{box_in, wired};
ghost use Rattle.lower_emit.specs.Tables.{frame_sizes};

use crate::bodies::body;
use crate::code::Code;
use crate::owner::Owner;
use lower_plan::PlanStep;
use std::alloc::Global;
use two_d::Program;
use umix_base::Memory;

/// Adds the boxes of a module, in the order of their turns.
pub(crate) fn all_boxes(
    alloc: Global,
    code: &mut Code,
    program: &Program,
    frames: &Vec<u32>,
    owner: &Owner,
    steps: &Vec<PlanStep>,
) -> Result<(), Memory>
    requires frames { frames.now.items ≡ frame_sizes program.now }
    requires owner { IsOwner program.now owner.now }
    requires steps { HaveSlots (module_at program.now owner.now.number) steps.now.items }
    requires place { length code.old.words.items
        + boxes_length (layout_in owner.now.places)
        (boxes_owned program.now owner.now steps.now.items) ≤ most_block_words }
    ensures { OnOk result (AddsOps code.old code.new (boxes_code (layout_in owner.now.places)
        (boxes_owned program.now owner.now steps.now.items) (length code.old.words.items))) }
{
    for step in steps {
        one_box(alloc, code, program, frames, owner, step)?;
    }
    Ok(())
}

/// Adds a box: a guard for each input that is wired, and then what the box does once they are
/// there. That is made apart, for the place where it will stand, so that the guards know where it
/// ends.
fn one_box(
    alloc: Global,
    code: &mut Code,
    program: &Program,
    frames: &Vec<u32>,
    owner: &Owner,
    step: &PlanStep,
) -> Result<(), Memory>
    requires frames { frames.now.items ≡ frame_sizes program.now }
    requires owner { IsOwner program.now owner.now }
    requires step { IsStep (module_at program.now owner.now.number) step.now step.now.bx }
    requires place { length code.old.words.items
        + box_length (layout_in owner.now.places)
        (box_in program.now owner.now.number step.now) ≤ most_block_words }
    ensures { OnOk result (AddsOps code.old code.new (box_code (layout_in owner.now.places)
        (box_in program.now owner.now.number step.now) (length code.old.words.items))) }
{
    let place = code.place();
    let start = place + guards_length(step);
    let inner = inner_code(alloc, program, frames, owner, step, start)?;
    guards(code, owner, step, place, start + inner.place())?;
    code.append(&inner)
}

/// What a box does once its inputs are there, for a place.
fn inner_code(
    alloc: Global,
    program: &Program,
    frames: &Vec<u32>,
    owner: &Owner,
    step: &PlanStep,
    place: u32,
) -> Result<Code, Memory>
    requires frames { frames.now.items ≡ frame_sizes program.now }
    requires owner { IsOwner program.now owner.now }
    requires step { IsStep (module_at program.now owner.now.number) step.now step.now.bx }
    requires place { place ≤ most_block_words }
    ensures { IfOk result (λ inner. Says inner (body_code (layout_in owner.now.places)
        (box_in program.now owner.now.number step.now) place)) }
{
    let mut inner = Code::new(alloc);
    let row = &program.modules()[owner.number].boxes[step.bx];
    body(
        &mut inner,
        program,
        frames,
        owner,
        step,
        &row.command,
        place,
    )?;
    Ok(inner)
}

/// The words of a box's guards.
fn guards_length(step: &PlanStep) -> u32
    ensures length { result ≡ 6 * length (wired step.now.n step.now.w) }
    ensures few { result < 13 }
{
    match (step.n, step.w) {
        (None, None) => 0,
        (None, Some(_)) | (Some(_), None) => 6,
        (Some(_), Some(_)) => 12,
    }
}

/// Adds a guard for each input that is wired: on to the next, or to the end of the box.
fn guards(
    code: &mut Code,
    owner: &Owner,
    step: &PlanStep,
    place: u32,
    end: u32,
) -> Result<(), Memory>
    requires step { HasStep owner.now step.now }
    requires place { place ≤ most_block_words }
    requires end { end ≤ most_block_words }
    ensures { OnOk result (AddsOps code.old code.new
        (guards_code (wired step.now.n step.now.w) place end)) }
{
    let north = owner.north(step);
    let west = owner.west(step);
    match (step.n, step.w) {
        (None, None) => Ok(()),
        (Some(_), None) => code.branch_on_slot(north, end, place + 6),
        (None, Some(_)) => code.branch_on_slot(west, end, place + 6),
        (Some(_), Some(_)) => {
            code.branch_on_slot(north, end, place + 6)?;
            code.branch_on_slot(west, end, place + 12)
        }
    }
}
