ghost use Rattle.std.specs.Prelude.{◌≡◌, ◌+◌, ◌≤◌, ◌<◌, ◌↔◌, IsTrue, All, IfOk, ◌^◌, ◌⊎◌};
ghost use Rattle.two_d.specs.Cells.{cell};
ghost use Rattle.two_d.specs.Frames.{name_of, IsWritten};
ghost use Rattle.two_d.specs.Names.{IsNameByte};
ghost use Rattle.two_d.specs.Reading.{Gives};
ghost use Rattle.grid_reader.specs.Faults.{fault_of};
ghost use Rattle.grid_reader.specs.Frames.{rect_of, IsFrameOf, StopsBefore};

use crate::fault::GridFault;
use crate::frame::Frame;
use crate::grid::Grid;
use std::alloc::{AllocError, Global};
use two_d::Name;
use umix_base::Place;

/// The name of the module in a frame: the longest run of letters, digits and `_` from its first
/// interior cell on; or `NoName`, where that is no name (docs/GRID.md, "Names").
pub fn name(alloc: Global, grid: &Grid, frame: &Frame) -> Result<Name, GridFault>
    requires { IsFrameOf grid.now frame.now }
    ensures { Gives (λ name. name) fault_of result (name_of grid.now (rect_of frame.now)) }
{
    let right = frame.right;
    let first = Place {
        row: frame.top + 1,
        col: frame.left + 1,
    };
    let run = run_within(alloc, grid, first.row, frame.left, right)?;
    match Name::read(alloc, &run)? {
        Some(name) => Ok(name),
        None => Err(GridFault::NoName(first)),
    }
}

/// The bytes of a row strictly between two columns, up to the first that can be in no name.
fn run_within(
    alloc: Global,
    grid: &Grid,
    row: u32,
    left: u32,
    right: u32,
) -> Result<Vec<u8>, AllocError>
    requires { left < right }
    ensures letters { IfOk result (λ run. All IsNameByte run.items) }
    ensures written { IfOk result (λ run. IsWritten grid.now row (left + 1) run.items) }
    ensures longest { IfOk result (λ run. StopsBefore grid.now row left right run.items) }
{
    let mut run = Vec::new(alloc);
    for col in left + 1..right {
        let byte = grid.cell(Place { row, col });
        if !is_name_byte(byte) {
            return Ok(run);
        }
        run.push(byte)?;
    }
    Ok(run)
}

fn is_name_byte(byte: u8) -> bool
    ensures { IsTrue result ↔ IsNameByte byte }
{
    byte.is_ascii_lowercase() || byte.is_ascii_digit() || byte == b'_'
}
