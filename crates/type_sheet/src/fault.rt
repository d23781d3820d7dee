//! What is wrong with a sheet, or with a program against it.

ghost use Rattle.std.specs.Prelude.{◌≡◌};
ghost use Rattle.type_sheet.specs.declared.fault.SheetFault.TheVariants.{Memory as SheetFaultMemory};

use std::alloc::{AllocError, AllocFailed};
use umix_base::Memory;

/// A place of a program, by numbers from 0.
#[derive(Clone, Copy, PartialEq, Eq, Debug)]
pub enum At {
    /// A module.
    Module(usize),
    /// A module and a box of it.
    Bx(usize, usize),
    /// A module and an exit of it.
    Exit(usize, usize),
}

/// Why a text is no sheet, or a program doesn't fit one. Lines count from 1. See docs/TYPES.md.
#[derive(Debug, Drop)]
pub enum SheetFault {
    /// The text has more than 262,144 bytes.
    TooLong,
    /// The line is of none of the forms.
    BadSheet(usize),
    /// The line declares the type, module, port or expression of an earlier line.
    SameLine(usize),
    /// The line uses a type that no line declares.
    NoType(usize),
    /// What the line speaks of isn't there, or the line isn't allowed.
    NoPlace(usize),
    /// A line is needed for this module or box and isn't there.
    NoLine(At),
    /// A rule of types fails at this box or exit.
    Mismatch(At),
    /// There was no memory.
    Memory,
}

impl From<AllocError> for SheetFault {
    ghost from_gives = { λ _ fault. fault ≡ SheetFaultMemory };

    fn from(_error: AllocError) -> SheetFault {
        SheetFault::Memory
    }
}

impl<T: Drop> From<AllocFailed<T>> for SheetFault {
    ghost from_gives = { λ _ fault. fault ≡ SheetFaultMemory };

    fn from(_error: AllocFailed<T>) -> SheetFault {
        SheetFault::Memory
    }
}

impl From<Memory> for SheetFault {
    ghost from_gives = { λ _ fault. fault ≡ SheetFaultMemory };

    fn from(_error: Memory) -> SheetFault {
        SheetFault::Memory
    }
}
