ghost use Rattle.std.specs.Prelude.{◌≡◌, ◌≤◌, ℕ, Option, length, IfOk, IsErrOf};
ghost use Rattle.umix_base.specs.Files.{Files, ReadsFile, WritesFile, HasReadCause};
ghost use Rattle.umix_base.specs.Causes.{HasCauseIf, KeepsTelling};

use std::alloc::Global;

/// Why a call of a shelf gave nothing.
#[derive(Clone, Copy, PartialEq, Eq, Debug, Drop)]
pub enum ShelfFault {
    /// The outside failed.
    Failed,
    /// There was no memory.
    Memory,
}

/// Files by their names. See "The outside" in docs/ARCHITECTURE.md.
pub trait Shelf {
    /// The files, where the shelf tells them.
    ghost files: { Self → Option Files };

    /// How often a read has failed.
    ghost read_faults: { Self → ℕ };

    /// How often a write has failed.
    ghost write_faults: { Self → ℕ };

    /// The first `max` bytes of the file, or all of it where it is shorter. No file changes.
    /// A shelf that tells its files may answer `Failed` for one that isn't there without counting it.
    fn read(&mut self, alloc: Global, name: &str, max: usize) -> Result<Vec<u8>, ShelfFault>
        ensures bytes { ReadsFile (files self.old) name.now max result }
        ensures short { IfOk result (λ bytes. length bytes.items ≤ max) }
        ensures files { files self.new ≡ files self.old }
        ensures cause { HasReadCause (files self.old) name.now (read_faults self.old) (read_faults self.new) result }
        ensures writes { write_faults self.new ≡ write_faults self.old };

    /// Makes the file's contents the bytes. After `Failed` the file is as before or holds a prefix of
    /// the bytes, after `Memory` it is as before. Every other file is as before.
    fn write(&mut self, alloc: Global, name: &str, bytes: &[u8]) -> Result<(), ShelfFault>
        ensures file { WritesFile name.now bytes.now (files self.old) (files self.new) result }
        ensures tells { KeepsTelling (files self.old) (files self.new) }
        ensures cause { HasCauseIf (IsErrOf result ShelfFault.Failed) (write_faults self.old) (write_faults self.new) }
        ensures reads { read_faults self.new ≡ read_faults self.old };
}
