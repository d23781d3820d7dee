ghost use Rattle.std.specs.Prelude.{◌≡◌, ◌≤◌, All, IfOk, IfErr, Ok, OnOk};
ghost use Rattle.two_d.specs.Good.{IsGood};
ghost use Rattle.two_d.specs.Program.{program_of};
ghost use Rattle.two_d.specs.Programs.{modules_of};
ghost use Rattle.two_d.specs.Sound.{LeadsOn};
ghost use Rattle.two_d.specs.Weights.{weight};
ghost use Rattle.grid_draw.specs.Answers.{HasFault, IsDrawn, NoneTooWide};
ghost use Rattle.grid_draw.specs.Layout.{drawing_of};
ghost use Rattle.grid_draw.specs.inner.Answers.{IsNoSize};
ghost use Rattle.grid_draw.specs.inner.Sizes.{sizes_of};

use crate::layout::layout_of;
use crate::page::push_drawing;
use std::alloc::Global;
use two_d::{Module, Program};
use umix_base::Memory;

/// The columns that a line of a grid has at most, and the bytes that a grid has at most.
const MOST_COLUMNS: usize = 4096;

const MOST_BYTES: u64 = 262_144;

/// Why a program isn't drawn.
#[derive(Clone, Copy, PartialEq, Eq, Debug, Drop)]
pub enum DrawFault {
    /// The drawing of this module, the first such one, counted from 1, has more than 4,096 columns.
    TooWide(usize),
    /// The drawing would have so many bytes, more than 262,144.
    TooLong(u64),
    /// There was no memory.
    Memory,
}

impl From<Memory> for DrawFault {
    ghost use Rattle.grid_draw.specs.declared.drawing.DrawFault.TheVariants.{Memory as NoMemory};

    ghost from_gives = { λ _ fault. fault ≡ NoMemory };

    fn from(_memory: Memory) -> DrawFault {
        DrawFault::Memory
    }
}

/// The drawing of a program of a grid: its modules under each other, in the layout of "Drawing" in
/// docs/GRID.md. Linear in the bytes of the drawing, and where it is refused in the program.
///
/// # Errors
/// See `DrawFault`.
pub fn draw(alloc: Global, program: &Program) -> Result<Vec<u8>, DrawFault>
    requires { weight program.now ≤ 262144 }
    ensures drawn { IfOk result (IsDrawn program.now) }
    ensures refused { IfErr result (HasFault program.now) }
    ensures again { OnOk result
        (All LeadsOn program.now → program_of (drawing_of program.now) (Ok program.now)) }
{
    let modules = program.modules().as_slice();
    let size = size(alloc, modules)?;
    if size > MOST_BYTES {
        return Err(DrawFault::TooLong(size));
    }
    Ok(drawing(alloc, modules)?)
}

/// The bytes that the drawing has, or the first module whose drawing is too wide.
fn size(alloc: Global, modules: &[Module]) -> Result<u64, DrawFault>
    requires good { IsGood (modules_of modules.now) }
    requires light { weight (modules_of modules.now) ≤ 262144 }
    ensures counted { IfOk result
        (λ n. (n ≡ sizes_of (modules_of modules.now)) × NoneTooWide (modules_of modules.now)) }
    ensures refused { IfErr result (IsNoSize (modules_of modules.now)) }
{
    let mut size = 0;
    for (i, one) in modules.iter().enumerate() {
        let layout = layout_of(alloc, one)?;
        if layout.columns() + 2 > MOST_COLUMNS {
            return Err(DrawFault::TooWide(i + 1));
        }
        size += layout.size();
    }
    Ok(size)
}

/// The drawings of the modules under each other.
fn drawing(alloc: Global, modules: &[Module]) -> Result<Vec<u8>, Memory>
    requires good { IsGood (modules_of modules.now) }
    requires light { weight (modules_of modules.now) ≤ 262144 }
    requires narrow { NoneTooWide (modules_of modules.now) }
    requires short { sizes_of (modules_of modules.now) ≤ 262144 }
    ensures { IfOk result (λ text. text.items ≡ drawing_of (modules_of modules.now)) }
{
    let mut text = Vec::new(alloc);
    for one in modules {
        let layout = layout_of(alloc, one)?;
        push_drawing(alloc, &mut text, &layout)?;
    }
    Ok(text)
}
