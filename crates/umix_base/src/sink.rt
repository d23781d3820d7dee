ghost use Rattle.std.specs.Prelude.{List, ℕ, Option};
ghost use Rattle.umix_base.specs.Causes.{HasCause, KeepsTelling};
ghost use Rattle.umix_base.specs.Streams.{Appends};

use crate::Failed;

/// Bytes go out here. See "The outside" in docs/ARCHITECTURE.md.
pub trait Sink {
    /// The bytes written, where the sink tells them.
    ghost written: { Self → Option (List ℕ) };

    /// How often a call has failed.
    ghost faults: { Self → ℕ };

    /// Appends the piece. After `Failed` some prefix of it was appended.
    fn put(&mut self, piece: &[u8]) -> Result<(), Failed>
        ensures appended { Appends piece.now (written self.old) (written self.new) result }
        ensures tells { KeepsTelling (written self.old) (written self.new) }
        ensures cause { HasCause (faults self.old) (faults self.new) result };
}
