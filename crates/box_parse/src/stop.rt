ghost use Rattle.box_parse.specs.inner.ReaderOnLists.{IsWithin, fault_of};
ghost use Rattle.std.specs.Prelude.{◌≡◌};

use crate::fault::BoxFault;
use std::alloc::{AllocError, AllocFailed};
use umix_base::Memory;

/// Why a reader stopped, with how many bytes of the text are left there.
#[derive(Clone, Copy, Debug, Drop)]
pub enum Stop {
    /// No command goes on with the first of them.
    Bad(usize),
    /// They begin with a token that opens a level too many.
    TooDeep(usize),
    /// There was no memory.
    Memory,
}

impl Stop {
    /// The fault of a text of this length.
    pub fn fault(self, len: usize) -> BoxFault
        requires { IsWithin self len }
        ensures { result ≡ fault_of self len }
    {
        match self {
            Stop::Bad(left) => BoxFault::Bad(len - left),
            Stop::TooDeep(left) => BoxFault::TooDeep(len - left),
            Stop::Memory => BoxFault::Memory,
        }
    }
}

impl From<AllocError> for Stop {
    ghost use Rattle.box_parse.specs.declared.stop.Stop.TheVariants.{Memory};

    ghost from_gives = { λ _ e. e ≡ Memory };

    fn from(_: AllocError) -> Stop {
        Stop::Memory
    }
}

impl<T: Drop> From<AllocFailed<T>> for Stop {
    ghost use Rattle.box_parse.specs.declared.stop.Stop.TheVariants.{Memory};

    ghost from_gives = { λ _ e. e ≡ Memory };

    fn from(_: AllocFailed<T>) -> Stop {
        Stop::Memory
    }
}

impl From<Memory> for Stop {
    ghost use Rattle.box_parse.specs.declared.stop.Stop.TheVariants.{Memory};

    ghost from_gives = { λ _ e. e ≡ Memory };

    fn from(_: Memory) -> Stop {
        Stop::Memory
    }
}
