//! Lines of commands, taken byte by byte.

ghost use Rattle.std.specs.Prelude.{◌≡◌, ◌<◌, [], ◌∷◌, ◌++◌, length};
ghost use Rattle.umix_base.specs.Causes.{HasCause, KeepsTelling};
ghost use Rattle.um_debug.specs.CommandLines.{most_line_bytes};
ghost use Rattle.um_debug.specs.inner.Calls.{TakesLine};

use std::marker::Model;
use umix_base::{Failed, Source};

/// The most bytes of a line.
const MOST_LINE_BYTES: usize = 64;

/// A line of at most 64 bytes.
#[derive(Drop)]
pub(crate) struct CommandLine {
    bytes: [u8; MOST_LINE_BYTES],
    len: usize,
}

impl Model for CommandLine {
    ghost use Rattle.std.specs.Prelude.{ℕ, List, ◌≤◌, take};
    ghost use Rattle.um_debug.specs.CommandLines.{most_line_bytes};

    ghost Value = { List ℕ };

    ghost view = { λ line. take line.len line.bytes };

    ghost invariant = { λ line. line.len ≤ most_line_bytes };
}

impl CommandLine {
    fn empty() -> CommandLine
        ensures { result ≡ [] }
    {
        CommandLine {
            bytes: [0; MOST_LINE_BYTES],
            len: 0,
        }
    }

    /// The bytes of the line.
    pub(crate) fn bytes(&self) -> &[u8]
        ensures { result.now ≡ self.now }
    {
        &self.bytes[..self.len]
    }

    fn push(&mut self, byte: u8)
        requires { length self.old < most_line_bytes }
        ensures { self.new ≡ self.old ++ byte ∷ [] }
    {
        self.bytes[self.len] = byte;
        self.len += 1;
    }
}

/// The next line, or `None` where no byte is left. Takes no memory.
pub(crate) fn next_line<I: Source>(commands: &mut I) -> Result<Option<CommandLine>, Failed>
    ensures takes { TakesLine (I.rest commands.old) (I.rest commands.new) result }
    ensures tells { KeepsTelling (I.rest commands.old) (I.rest commands.new) }
    ensures cause { HasCause (I.faults commands.old) (I.faults commands.new) result }
{
    let mut line = CommandLine::empty();
    for _ in 0..MOST_LINE_BYTES {
        match commands.next()? {
            Some(b'\n') => return Ok(Some(line)),
            Some(byte) => line.push(byte),
            None if line.bytes().is_empty() => return Ok(None),
            None => return Ok(Some(line)),
        }
    }
    Ok(Some(line))
}
