ghost use Rattle.std.specs.Prelude.{◌≡◌, List, ℕ, Option};
ghost use Rattle.umix_base.specs.Causes.{HasCause, KeepsTelling};
ghost use Rattle.umix_base.specs.Streams.{Takes};

use crate::Failed;

/// Bytes come in from here. See "The outside" in docs/ARCHITECTURE.md.
pub trait Source {
    /// The bytes that are still to come, where the source tells them.
    ghost rest: { Self → Option (List ℕ) };

    /// How often a call has failed.
    ghost faults: { Self → ℕ };

    /// The next byte, or `None` where there is none. After `Failed` the rest is as before.
    fn next(&mut self) -> Result<Option<u8>, Failed>
        ensures taken { Takes (rest self.old) (rest self.new) result }
        ensures tells { KeepsTelling (rest self.old) (rest self.new) }
        ensures cause { HasCause (faults self.old) (faults self.new) result };
}
