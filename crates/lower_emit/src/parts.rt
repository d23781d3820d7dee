//! How much a module weighs, and how large its frame is.

ghost use Rattle.std.specs.Prelude.{◌≡◌, ◌-◌, ◌^◌, min, IfOk};
ghost use Rattle.two_d.specs.Programs.{box_of, module_of};
ghost use Rattle.two_d.specs.Trees.{tree_of};
ghost use Rattle.two_d.specs.Weights as weight;
ghost use Rattle.lower_emit.specs.Tables.{IsLight, frame_sizes};

use std::alloc::Global;
use two_d::{BoxRow, Command, Exp, Module, Program};
use umix_base::Memory;

/// The words of the frame of each module, in the order of their numbers: twelve, and one more for
/// each unit of the module's part of the weight. They are measured once for a program, and not at
/// each use of a module. See "Arrays" in docs/COMPILED.md.
pub fn frame_sizes(alloc: Global, program: &Program) -> Result<Vec<u32>, Memory>
    requires light { IsLight program.now }
    ensures sizes { IfOk result (λ sizes. sizes.items ≡ frame_sizes program.now) }
{
    let mut sizes = Vec::new(alloc);
    for owner in program.modules() {
        sizes.push(12 + part_of(owner) as u32)?;
    }
    Ok(sizes)
}

/// A module's part of the weight of its program, or the largest number if it is larger. Takes no
/// memory.
pub fn part_of(owner: &Module) -> u64
    ensures part { result ≡ min (weight.part (module_of owner.now)) (2 ^ 64 - 1) }
{
    let mut total = 6_u64
        .saturating_add(owner.name.bytes().len() as u64)
        .saturating_add(owner.exits.len() as u64);
    for row in &owner.boxes {
        total = total.saturating_add(box_part_of(row));
    }
    total
}

/// A box's part of the weight, or the largest number if it is larger.
fn box_part_of(row: &BoxRow) -> u64
    ensures { result ≡ min (weight.box_part (box_of row.now)) (2 ^ 64 - 1) }
{
    match &row.command {
        Command::Send(outs) => {
            let mut total: u64 = 8;
            for (value, _) in outs {
                total = total.saturating_add(nodes_of(value));
            }
            total
        }
        Command::Case(value, _, _) | Command::Split(value) => 8_u64.saturating_add(nodes_of(value)),
        Command::Call(_) => 8,
    }
}

/// The nodes of an expression, or the largest number if there are more.
fn nodes_of(exp: &Exp) -> u64
    ensures { result ≡ min (weight.nodes (tree_of exp.now)) (2 ^ 64 - 1) }
{
    match exp {
        Exp::Unit | Exp::N | Exp::W => 1,
        Exp::Pair(first, second) => 1_u64
            .saturating_add(nodes_of(first))
            .saturating_add(nodes_of(second)),
        Exp::Inl(inner) | Exp::Inr(inner) => 1_u64.saturating_add(nodes_of(inner)),
    }
}
