//! Why a machine stops.

ghost use Rattle.std.specs.Prelude.{◌≡◌};
ghost use Rattle.um_machine.specs.Stops.{stop_name};

/// Whether a machine goes on.
#[derive(Clone, Copy, PartialEq, Eq, Debug, Drop)]
pub enum Turn {
    /// A cycle was made, and more may follow.
    Running,
    /// The machine has halted.
    Halted,
}

/// Why a machine stops. The numbers are the arrays or the words that there would be.
/// See "Faults" in docs/MACHINE.md.
#[derive(Clone, Copy, PartialEq, Eq, Debug, Drop)]
pub enum Stop {
    /// The machine has halted.
    Halted,
    /// As many cycles were made as were allowed.
    Budget,
    /// The finger indicates no platter of array 0.
    FingerOutside,
    /// The operator's number is 14 or 15.
    BadOperator,
    /// An Index into an array that isn't active.
    IndexInactive,
    /// An Index past the end of its array.
    IndexOutside,
    /// An Amendment of an array that isn't active.
    AmendInactive,
    /// An Amendment past the end of its array.
    AmendOutside,
    /// A Division by 0.
    DivideByZero,
    /// An Abandonment of array 0.
    AbandonZero,
    /// An Abandonment of an array that isn't active.
    AbandonInactive,
    /// A Load of an array that isn't active.
    LoadInactive,
    /// An Output of a number over 255.
    OutputTooLarge,
    /// An Allocation past the limit on arrays.
    ArraysFull(u64),
    /// An Allocation or a Load past the limit on words.
    WordsFull(u64),
    /// The input failed.
    ReadFault,
    /// The output failed.
    WriteFault,
    /// There was no memory.
    Memory,
}

impl Stop {
    /// The name of the variant, as it is printed. Takes no memory.
    pub fn name(&self) -> &'static str
        ensures { result.now ≡ stop_name self.now }
    {
        match self {
            Stop::Halted => "Halted",
            Stop::Budget => "Budget",
            Stop::FingerOutside => "FingerOutside",
            Stop::BadOperator => "BadOperator",
            Stop::IndexInactive => "IndexInactive",
            Stop::IndexOutside => "IndexOutside",
            Stop::AmendInactive => "AmendInactive",
            Stop::AmendOutside => "AmendOutside",
            Stop::DivideByZero => "DivideByZero",
            Stop::AbandonZero => "AbandonZero",
            Stop::AbandonInactive => "AbandonInactive",
            Stop::LoadInactive => "LoadInactive",
            Stop::OutputTooLarge => "OutputTooLarge",
            Stop::ArraysFull(_) => "ArraysFull",
            Stop::WordsFull(_) => "WordsFull",
            Stop::ReadFault => "ReadFault",
            Stop::WriteFault => "WriteFault",
            Stop::Memory => "Memory",
        }
    }
}
