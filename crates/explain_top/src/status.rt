//! How the program ended.

ghost use Rattle.std.specs.Prelude.{◌≡◌, Some, MatchOption, None};
ghost use Rattle.explain_top.specs.Statuses.{line_of, number_of};

/// How the program ended: as `codex` tells it. See "Statuses" in docs/COMMANDS.md.
#[derive(Clone, Copy, PartialEq, Eq, Debug, Drop)]
pub enum Status {
    /// The page says what the file is, or the help text was asked for.
    Done,
    /// The page shows the fault of the file.
    Refused,
    /// The words ask for nothing that is known.
    Usage,
    /// The page shows where the program of the file is stuck.
    Stuck,
    /// The program of the file has come to nothing within so many events.
    Budget,
    /// The file couldn't be read.
    ReadFault,
    /// The output, or a line on `err`, couldn't be written.
    WriteFault,
    /// There was no memory.
    Memory,
}

impl Status {
    /// The number with which the program ends. Takes no memory.
    pub fn number(self) -> u8
        ensures { result ≡ number_of self }
    {
        match self {
            Status::Done => 0,
            Status::Refused => 1,
            Status::Usage => 2,
            Status::Stuck => 3,
            Status::Budget => 6,
            Status::ReadFault => 7,
            Status::WriteFault => 8,
            Status::Memory => 9,
        }
    }

    /// The line that tells on `err` why there is no whole page, where there is none.
    pub(crate) fn line(self) -> Option<&'static str>
        ensures { MatchOption result (line_of self ≡ None) (λ line. line_of self ≡ Some line.now) }
    {
        match self {
            Status::ReadFault => Some("read fault\n"),
            Status::WriteFault => Some("write fault\n"),
            Status::Memory => Some("no memory\n"),
            Status::Done | Status::Refused | Status::Usage | Status::Stuck | Status::Budget => None,
        }
    }
}
