//! What is wrong with an assembly text.

ghost use Rattle.std.specs.Prelude.{◌≡◌};
ghost use Rattle.um_asm.specs.declared.fault.AsmFault.TheVariants.{Memory};

use std::alloc::{AllocError, AllocFailed};
use thiserror::Error;

/// Why a text has no words: the fault of the first faulty line, whose number counts from 1. See
/// "Faults" in docs/ASSEMBLY.md.
#[derive(Debug, Drop, Error)]
pub enum AsmFault {
    /// The line isn't of the forms of a line, or stands where it may not.
    #[error("BadLine")]
    BadLine(usize),
    /// The line's label or block name was defined on an earlier line of its scope.
    #[error("SameLabel")]
    SameLabel(usize),
    /// The line uses a label or a block that isn't defined.
    #[error("NoLabel")]
    NoLabel(usize),
    /// A value is over the statement's greatest.
    #[error("ValueTooLarge")]
    ValueTooLarge(usize),
    /// No line is faulty, and there are more than 16,777,216 words.
    #[error("TooLong")]
    TooLong,
    /// There was no memory.
    #[error("Memory")]
    Memory,
}

impl From<AllocError> for AsmFault {
    ghost from_gives = { λ _ fault. fault ≡ Memory };

    fn from(_error: AllocError) -> AsmFault {
        AsmFault::Memory
    }
}

impl<T: Drop> From<AllocFailed<T>> for AsmFault {
    ghost from_gives = { λ _ fault. fault ≡ Memory };

    fn from(_error: AllocFailed<T>) -> AsmFault {
        AsmFault::Memory
    }
}
