ghost use Rattle.std.specs.Prelude.{◌≤◌, ◌<◌, ◌^◌, IfOk, All, List, length};
ghost use Rattle.two_d.specs.Faults.{number_and_place};
ghost use Rattle.two_d.specs.Program.{Drawn, program_of};
ghost use Rattle.two_d.specs.Programs.{modules_of};
ghost use Rattle.two_d.specs.Reading.{Gives, faults_mapped};
ghost use Rattle.two_d.specs.Sound.{IsSound, LeadsOn};
ghost use Rattle.two_d.specs.Weights.{weight};
ghost use Rattle.module_table.specs.Answers.{answer_of};
ghost use Rattle.module_table.specs.Drawn.{AreModulesRead};
ghost use Rattle.module_table.specs.inner.Drawings.{placed_reading};

use crate::corners::placed;
use crate::drawing::drawn;
use crate::fault::CheckFault;
use crate::modules::Modules;
use std::alloc::Global;
use two_d::{Program, good_program};

/// The program of a text, whose modules are those of its frames in reading order; or its first fault
/// (docs/GRID.md, "Faults"). Takes time linear in the bytes, but for what names and orders of boxes take.
pub fn check(alloc: Global, bytes: &[u8]) -> Result<Program, CheckFault>
    ensures read { Gives (λ program. program) answer_of result
        (faults_mapped number_and_place (program_of bytes.now)) }
    ensures weight { IfOk result (λ program. weight program ≤ length bytes.now) }
    ensures entries { IfOk result (λ program. All LeadsOn program) }
{
    let modules = drawn(alloc, bytes)?;
    program_from(alloc, modules)
}

/// The program of modules that were read, or what is wrong with them, told by their places.
fn program_from(alloc: Global, drawn: Modules) -> Result<Program, CheckFault>
    requires few { length drawn.modules.items < 2 ^ 32 }
    requires sound { All IsSound (modules_of drawn.modules.items) }
    ensures { (read : List Drawn) → AreModulesRead drawn read
        → Gives (λ program. program) answer_of result (placed_reading read) }
{
    let Modules { modules, corners } = drawn;
    match good_program(alloc, modules) {
        Ok(program) => Ok(program),
        Err(fault) => Err(placed(&corners, fault)),
    }
}
