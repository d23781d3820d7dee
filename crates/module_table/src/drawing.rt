//! The modules of a text.

ghost use Rattle.std.specs.Prelude.{◌<◌, ◌^◌, IfOk, All, length};
ghost use Rattle.two_d.specs.Programs.{modules_of};
ghost use Rattle.two_d.specs.Sound.{IsSound};
ghost use Rattle.module_table.specs.Drawn.{AreModulesRead, Tells, drawn_of};

use crate::fault::CheckFault;
use crate::modules::{Modules, modules_in};
use grid_reader::{frames, read_grid};
use std::alloc::Global;

/// The modules of a text in reading order, and where they are drawn; or its first fault up to them
/// (docs/GRID.md, "Faults"): what is wrong with their list, as a name that two of them have, isn't
/// looked for. Takes time linear in the bytes.
pub fn drawn(alloc: Global, bytes: &[u8]) -> Result<Modules, CheckFault>
    ensures read { Tells AreModulesRead result (drawn_of bytes.now) }
    ensures few { IfOk result (λ drawn. length drawn.modules.items < 2 ^ 32) }
    ensures sound { IfOk result (λ drawn. All IsSound (modules_of drawn.modules.items)) }
{
    let grid = read_grid(alloc, bytes)?;
    let frames = frames(alloc, &grid)?;
    let modules = modules_in(alloc, &grid, &frames)?;
    Ok(modules)
}
