ghost use Rattle.std.specs.Prelude.{◌≡◌};

use std::alloc::{AllocError, AllocFailed};
use umix_base::{Memory, Place};

/// Why a grid is refused, and where (docs/GRID.md, "Faults").
#[derive(Debug, Drop)]
pub enum GridFault {
    /// The file has more than 262,144 bytes.
    TooLong,
    /// This byte may not stand in a grid.
    BadByte(Place),
    /// A line has a column 4,097, which is here.
    LineTooLong(Place),
    /// This corner has no frame.
    OpenFrame(Place),
    /// The frame of this corner meets an earlier one.
    FramesMeet(Place),
    /// Here is the second entry of one border.
    TwoEntries(Place),
    /// No name begins at this cell, the first within a frame.
    NoName(Place),
    /// This corner of a box has no box.
    OpenBox(Place),
    /// The box of this corner meets an earlier one.
    BoxesMeet(Place),
    /// There was no memory.
    Memory,
}

impl From<AllocError> for GridFault {
    ghost use Rattle.grid_reader.specs.declared.fault.GridFault.TheVariants.{Memory};

    ghost from_gives = { λ _ e. e ≡ Memory };

    fn from(_error: AllocError) -> GridFault {
        GridFault::Memory
    }
}

impl<T: Drop> From<AllocFailed<T>> for GridFault {
    ghost use Rattle.grid_reader.specs.declared.fault.GridFault.TheVariants.{Memory};

    ghost from_gives = { λ _ e. e ≡ Memory };

    fn from(_error: AllocFailed<T>) -> GridFault {
        GridFault::Memory
    }
}

impl From<Memory> for GridFault {
    ghost use Rattle.grid_reader.specs.declared.fault.GridFault.TheVariants.{Memory};

    ghost from_gives = { λ _ e. e ≡ Memory };

    fn from(_error: Memory) -> GridFault {
        GridFault::Memory
    }
}
