ghost use Rattle.std.specs.Prelude.{◌≡◌};

use std::alloc::{AllocError, AllocFailed};
use umix_base::Place;

/// Why the wires of a module are refused, and where (docs/GRID.md, "Faults").
#[derive(Debug, Drop)]
pub enum WireFault {
    /// The second port of a side.
    TwoPorts(Place),
    /// A wire comes to this cell and can't go on.
    BrokenWire(Place),
    /// A turn without exactly one way to turn.
    BadTurn(Place),
    /// A wire comes to a cell that is occupied.
    Merge(Place),
    /// A cell that belongs to nothing.
    Stray(Place),
    /// There was no memory.
    Memory,
}

impl From<AllocError> for WireFault {
    ghost use Rattle.wire_trace.specs.declared.fault.WireFault.TheVariants.{Memory};

    ghost from_gives = { λ _ e. e ≡ Memory };

    fn from(_error: AllocError) -> WireFault {
        WireFault::Memory
    }
}

impl<T: Drop> From<AllocFailed<T>> for WireFault {
    ghost use Rattle.wire_trace.specs.declared.fault.WireFault.TheVariants.{Memory};

    ghost from_gives = { λ _ e. e ≡ Memory };

    fn from(_error: AllocFailed<T>) -> WireFault {
        WireFault::Memory
    }
}
