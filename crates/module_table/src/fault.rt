ghost use Rattle.std.specs.Prelude.{◌≡◌};
ghost use Rattle.two_d.specs.Faults.{TextFault, told_as};
ghost use Rattle.module_table.specs.Answers.{HasNumberOf, answer_of};

use grid_reader::GridFault;
use std::alloc::{AllocError, AllocFailed};
use umix_base::Place;
use wire_trace::WireFault;

/// Why a text is no program.
#[derive(Debug, Drop)]
pub enum CheckFault {
    /// The first fault of the text: its number in the table of docs/GRID.md, "Faults", and where it is.
    Bad { number: u8, place: Option<Place> },
    /// There was no memory.
    Memory,
}

impl CheckFault {
    /// The name of the fault, as "Faults" in docs/GRID.md has it. Takes no memory.
    pub fn name(&self) -> &'static str
        requires { (fault : TextFault) × HasNumberOf self.now fault }
        ensures { (fault : TextFault) → HasNumberOf self.now fault → result.now ≡ (told_as fault).1 }
    {
        match self {
            CheckFault::Bad { number, .. } => name_at(*number),
            CheckFault::Memory => "",
        }
    }

    /// A fault of this number at a place.
    pub(crate) fn at(number: u8, place: Place) -> CheckFault
        ensures { answer_of result ≡ Some (number, Some place) }
    {
        CheckFault::Bad {
            number,
            place: Some(place),
        }
    }

    /// A fault of this number that is nowhere.
    pub(crate) fn nowhere(number: u8) -> CheckFault
        ensures { answer_of result ≡ Some (number, None) }
    {
        CheckFault::Bad {
            number,
            place: None,
        }
    }
}

impl From<GridFault> for CheckFault {
    ghost use Rattle.std.specs.Option.{option_map};
    ghost use Rattle.two_d.specs.Faults.{number_and_place};
    ghost use Rattle.grid_reader.specs.Faults.{fault_of};
    ghost use Rattle.module_table.specs.Answers.{answer_of};

    ghost from_gives = { λ fault e. answer_of e ≡ option_map number_and_place (fault_of fault) };

    fn from(fault: GridFault) -> CheckFault {
        match fault {
            GridFault::TooLong => CheckFault::nowhere(1),
            GridFault::BadByte(place) => CheckFault::at(2, place),
            GridFault::LineTooLong(place) => CheckFault::at(3, place),
            GridFault::OpenFrame(place) => CheckFault::at(4, place),
            GridFault::FramesMeet(place) => CheckFault::at(5, place),
            GridFault::TwoEntries(place) => CheckFault::at(6, place),
            GridFault::NoName(place) => CheckFault::at(7, place),
            GridFault::OpenBox(place) => CheckFault::at(8, place),
            GridFault::BoxesMeet(place) => CheckFault::at(9, place),
            GridFault::Memory => CheckFault::Memory,
        }
    }
}

impl From<WireFault> for CheckFault {
    ghost use Rattle.std.specs.Option.{option_map};
    ghost use Rattle.two_d.specs.Faults.{number_and_place};
    ghost use Rattle.wire_trace.specs.Answers.{wire_fault_of};
    ghost use Rattle.module_table.specs.Answers.{answer_of};

    ghost from_gives = { λ fault e. answer_of e ≡ option_map number_and_place (wire_fault_of fault) };

    fn from(fault: WireFault) -> CheckFault {
        match fault {
            WireFault::TwoPorts(place) => CheckFault::at(11, place),
            WireFault::BrokenWire(place) => CheckFault::at(12, place),
            WireFault::BadTurn(place) => CheckFault::at(13, place),
            WireFault::Merge(place) => CheckFault::at(14, place),
            WireFault::Stray(place) => CheckFault::at(15, place),
            WireFault::Memory => CheckFault::Memory,
        }
    }
}

impl From<AllocError> for CheckFault {
    ghost use Rattle.module_table.specs.declared.fault.CheckFault.TheVariants.{Memory};

    ghost from_gives = { λ _ e. e ≡ Memory };

    fn from(_error: AllocError) -> CheckFault {
        CheckFault::Memory
    }
}

impl<T: Drop> From<AllocFailed<T>> for CheckFault {
    ghost use Rattle.module_table.specs.declared.fault.CheckFault.TheVariants.{Memory};

    ghost from_gives = { λ _ e. e ≡ Memory };

    fn from(_error: AllocFailed<T>) -> CheckFault {
        CheckFault::Memory
    }
}

/// The name of the fault with this number.
fn name_at(number: u8) -> &'static str
    ensures { (fault : TextFault) → (told_as fault).0 ≡ number → result.now ≡ (told_as fault).1 }
{
    match number {
        1 => "TooLong",
        2 => "BadByte",
        3 => "LineTooLong",
        4 => "OpenFrame",
        5 => "FramesMeet",
        6 => "TwoEntries",
        7 => "NoName",
        8 => "OpenBox",
        9 => "BoxesMeet",
        10 => "BadCommand",
        11 => "TwoPorts",
        12 => "BrokenWire",
        13 => "BadTurn",
        14 => "Merge",
        15 => "Stray",
        16 => "SameName",
        17 => "NoMain",
        18 => "MainHasInput",
        19 => "NoModule",
        20 => "BadInputs",
        21 => "Unwired",
        22 => "Cycle",
        _ => "TooDeep",
    }
}
