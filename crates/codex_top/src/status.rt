//! How a command ended, as a number.

ghost use Rattle.std.specs.Prelude.{◌≡◌};
ghost use Rattle.codex_top.specs.Statuses.{number_of};

/// How a command ended. See "Statuses" in docs/COMMANDS.md.
#[derive(Clone, Copy, PartialEq, Eq, Debug, Drop)]
pub enum Status {
    /// The command did its whole work.
    Done,
    /// A file of the command has a fault.
    Refused,
    /// The words are no command.
    Usage,
    /// Evaluation reached a stuck outcome.
    Stuck,
    /// The run met a fault of the machine's table.
    MachineFault,
    /// An Allocation or a Load would pass a limit.
    Limit,
    /// As many cycles, events or command lines were made as were allowed, and the work isn't over.
    Budget,
    /// A file or the input couldn't be read.
    ReadFault,
    /// The output, a line or a file couldn't be written.
    WriteFault,
    /// There was no memory.
    Memory,
}

impl Status {
    /// The number with which the program ends, from 0 to 9. Takes no memory. See "Statuses" in
    /// docs/COMMANDS.md.
    pub fn number(self) -> u8
        ensures { result ≡ number_of self }
    {
        self as u8
    }
}
