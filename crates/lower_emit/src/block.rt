ghost use Rattle.std.specs.Prelude.{◌≡◌, ◌+◌, ◌<◌, ◌++◌, IfOk, IfSome, OnOk, length};
ghost use Rattle.code_templates.specs.Lines.{StandsAt};
ghost use Rattle.code_templates.specs.Templates.{return_outcome};
ghost use Rattle.lower_plan.specs.Plans.{IsPlan};
ghost use Rattle.lower_emit.specs.Blocks.{block_code, block_length};
ghost use Rattle.lower_emit.specs.BlocksAlone.{BlockRuns};
ghost use Rattle.lower_emit.specs.inner.Codes.{AddsOps, HasPlaces, HasPlan, IsOwner, entries_of};
ghost use Rattle.lower_emit.specs.Plans.{block_of};
ghost use Rattle.lower_emit.specs.Tables.{IsLight, IsTable, frame_sizes};

use crate::code::Code;
use crate::ends::end;
use crate::owner::Owner;
use crate::parts::frame_sizes;
use crate::places::Places;
use crate::steps::all_boxes;
use lower_plan::Plan;
use std::alloc::Global;
use two_d::Program;
use umix_base::Memory;

/// The slots of a frame in which its instance finds its inputs.
const NORTH: u32 = 3;

const WEST: u32 = 4;

/// What the blocks of a program share: the number of the printer's block, which is that of the
/// modules; and for each module the number of its first text. The texts are numbered from 0, module
/// by module: one for each box, that for no result, that for two. See "Arrays" in docs/COMPILED.md.
#[derive(Debug, Drop)]
pub struct Table {
    pub printer: u32,
    pub sites: Vec<u32>,
}

/// The words of a module's block, from its plan: the values of its entries go to their wires, the
/// boxes have their turns, the outcome is found, and the block returns with it. Asks for a program
/// whose weight is at most 262,144, one of its plans, and its table; its only error is want of
/// memory. It measures the whole program for the sizes of frames: `emit_with` is for who has them.
/// See "A block" in docs/COMPILED.md.
pub fn emit(
    alloc: Global,
    plan: &Plan,
    program: &Program,
    table: &Table,
) -> Result<Vec<u32>, Memory>
    requires light { IsLight program.now }
    requires plan { IsPlan program.now plan.now }
    requires table { IsTable program.now table.now }
    ensures code { IfOk result (λ words. StandsAt words.items 0
        (block_code (block_of program.now plan.now) 0 ++ return_outcome)) }
    ensures length { IfOk result (λ words. length words.items
        ≡ block_length (block_of program.now plan.now) + 11) }
    ensures runs { IfOk result (λ words. BlockRuns program.now plan.now.«module» words.items) }
{
    let frames = frame_sizes(alloc, program)?;
    emit_with(alloc, plan, program, table, &frames)
}

/// The words of a module's block, as `emit` makes them, with the sizes of all frames at hand: linear
/// in the part of the module and in the words.
pub fn emit_with(
    alloc: Global,
    plan: &Plan,
    program: &Program,
    table: &Table,
    frames: &Vec<u32>,
) -> Result<Vec<u32>, Memory>
    requires light { IsLight program.now }
    requires plan { IsPlan program.now plan.now }
    requires table { IsTable program.now table.now }
    requires frames { frames.now.items ≡ frame_sizes program.now }
    ensures code { IfOk result (λ words. StandsAt words.items 0
        (block_code (block_of program.now plan.now) 0 ++ return_outcome)) }
    ensures length { IfOk result (λ words. length words.items
        ≡ block_length (block_of program.now plan.now) + 11) }
    ensures runs { IfOk result (λ words. BlockRuns program.now plan.now.«module» words.items) }
{
    let owner = owner_of(plan, program, table);
    let no_result = owner.texts + owner.places.boxes;
    let mut code = Code::new(alloc);
    entries(&mut code, &owner.places, plan)?;
    all_boxes(alloc, &mut code, program, frames, &owner, &plan.steps)?;
    end(
        &mut code,
        &owner.places,
        &plan.exits,
        no_result,
        no_result + 1,
    )?;
    code.return_outcome()?;
    Ok(code.words)
}

/// The module of a plan, with the places of its frame and its first text.
fn owner_of(plan: &Plan, program: &Program, table: &Table) -> Owner
    requires light { IsLight program.now }
    requires plan { IsPlan program.now plan.now }
    requires table { IsTable program.now table.now }
    ensures owner { IsOwner program.now result }
    ensures number { result.number ≡ plan.now.«module» }
    ensures wires { result.places.wires ≡ plan.now.slots }
    ensures places { HasPlan result plan.now }
{
    let boxes = program.modules()[plan.module].boxes.len() as u32;
    Owner {
        number: plan.module,
        places: Places {
            wires: plan.slots,
            boxes,
        },
        texts: table.sites[plan.module],
    }
}

/// Adds the moves of the inputs to the wires from the entries.
fn entries(code: &mut Code, places: &Places, plan: &Plan) -> Result<(), Memory>
    requires places { HasPlaces places.now }
    requires north { IfSome plan.now.north (λ k. k < places.now.wires) }
    requires west { IfSome plan.now.west (λ k. k < places.now.wires) }
    ensures { OnOk result (AddsOps code.old code.new (entries_of places.now plan.now)) }
{
    let north = places.side(plan.north, 0);
    let west = places.side(plan.west, 0);
    code.choose_slot(NORTH, NORTH, NORTH, north)?;
    code.choose_slot(WEST, WEST, WEST, west)
}

#[cfg(test)]
mod tests;
