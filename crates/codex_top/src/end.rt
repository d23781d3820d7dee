//! How a command ends.

ghost use Rattle.std.specs.Prelude.{◌≡◌};
ghost use Rattle.codex_top.specs.Endings.{status_of_finish};

use crate::Status;
use crate::line::Line;

/// How a command ends that has no line to tell.
#[derive(Clone, Copy, PartialEq, Eq, Debug, Drop)]
pub enum Finish {
    /// Its whole work is done.
    Done,
    /// An evaluation is stuck, and its text says where.
    Stuck,
}

/// How a command ends: without a line, or with the line that tells why its work isn't done.
pub type End = Result<Finish, Line>;

impl Finish {
    /// The status that goes with it.
    pub fn status(self) -> Status
        ensures { result ≡ status_of_finish self }
    {
        match self {
            Finish::Done => Status::Done,
            Finish::Stuck => Status::Stuck,
        }
    }
}
